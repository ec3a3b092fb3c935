// Work 4: records written.
use crate::input::{SCRIPTED, byte, narrowed, step};
use crate::sum::{byte_sum, fold};
use model::Record;

// The bytes into the buffer, from a position on, as far as it goes. (The two stay apart, as in `report`.)
fn put(out: &mut [u8], at: usize, bytes: [u8; 7]) {
    if out.len() < 7 || out.len() - 7 < at {
        return;
    }
    out[at..at + 7].copy_from_slice(&bytes);
}

// The script's steps as records, one after the other.
fn write_all(out: &mut [u8], script: &[u8], turn: u32) -> usize {
    let mut at: usize = 0;
    for scripted in script.chunks_exact(SCRIPTED) {
        let Ok(step) = step(scripted, turn) else {
            break;
        };
        let written = record::write(Record::Call(step));
        put(out, at, written.bytes);
        at = at.wrapping_add(written.count);
    }
    at
}

pub fn run(times: u32, script: &[u8]) -> u32 {
    let mut out = stream::large_buffer();
    let mut sum = 0;
    for i in 0..times {
        let end = write_all(&mut out, script, i);
        sum = fold(sum, narrowed(end));
        sum = fold(sum, u32::from(byte(&out, end / 2)));
    }
    byte_sum(sum, &out)
}
