// What the input says: numbers, a store's cells, the steps of a script. Past its end all is 0.
ghost use Rattle.std.specs.Prelude.{◌≤◌, length};

use model::{Refusal, Step};

// How many bytes a step of a script has, and where the plan starts.
pub const SCRIPTED: usize = 6;

pub const PLAN: usize = 5;

pub fn byte(bytes: &[u8], at: usize) -> u8 {
    bytes.get(at).copied().unwrap_or(0)
}

// 4 bytes, lowest first.
pub fn number(bytes: &[u8], at: usize) -> u32 {
    if bytes.len() < 4 || bytes.len() - 4 < at {
        return 0;
    }
    u32::from_le_bytes([bytes[at], bytes[at + 1], bytes[at + 2], bytes[at + 3]])
}

// As many cells as the store has, 4 bytes each. (`at` goes on by itself, and wraps, as `number` takes any.)
pub fn cells(store: &mut [u32], bytes: &[u8]) {
    let mut at: usize = 0;
    for cell in store {
        *cell = number(bytes, at);
        at = at.wrapping_add(4);
    }
}

// Where what comes after the plan starts; at the end where no plan can start.
pub fn after_plan(bytes: &[u8]) -> usize
    ensures { result ≤ length bytes.now }
{
    if bytes.len() < PLAN {
        return bytes.len();
    }
    let after = plan::rest(&bytes[PLAN..]);
    bytes.len() - after.len()
}

// The step that a script has in these bytes, or refusal 7; the turn is added to its body.
pub fn step(scripted: &[u8], turn: u32) -> Result<Step, Refusal> {
    let index = byte(scripted, 1);
    let body = number(scripted, 2).wrapping_add(turn);
    record::step_of(byte(scripted, 0), index, index, body)
}

// A length as a value of the checksum.
pub fn narrowed(length: usize) -> u32 {
    (length % (rules::word::MODULUS as usize)) as u32
}
