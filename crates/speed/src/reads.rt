// Work 3: records read. A byte of the first record's body is another each time.
use crate::input::narrowed;
use crate::sum::{fold, record_code};

fn read_all(sum: u32, bytes: &[u8]) -> u32 {
    let mut r = sum;
    let mut left = bytes;
    for _ in 0..bytes.len() {
        let Ok(found) = record::read(left) else {
            break;
        };
        r = fold(r, record_code(found));
        left = record::rest(left);
    }
    fold(r, narrowed(left.len()))
}

pub fn run(times: u32, bytes: &mut [u8]) -> u32 {
    let mut sum = 0;
    for i in 0..times {
        if 3 < bytes.len() {
            bytes[3] = (i % 255) as u8 + 1;
        }
        sum = read_all(sum, bytes);
    }
    sum
}
