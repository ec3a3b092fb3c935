// Work 5: the smallest part of a script that fails as it does. The script is a list of calls, kind 9 a recover; what it
// has past 256 calls is left out.
use crate::input::{SCRIPTED, byte, step};
use crate::sum::{byte_sum, fold};
use model::{LISTED, Record, Refusal, Topology};
use reduction::Reduced;

fn call(scripted: &[u8], turn: u32) -> Result<Record, Refusal> {
    if byte(scripted, 0) == record::RECOVER {
        return Ok(Record::Recover);
    }
    Ok(Record::Call(step(scripted, turn)?))
}

// The script's calls, at the start of those lent, and how many they are.
fn list(script: &[u8], turn: u32, calls: &mut [Record; LISTED]) -> usize {
    for count in 0..LISTED {
        let Some(scripted) = script.get(SCRIPTED * count..SCRIPTED * (count + 1)) else {
            return count;
        };
        let Ok(content) = call(scripted, turn) else {
            return count;
        };
        calls[count] = content;
    }
    LISTED
}

fn number(refusal: Refusal) -> u32 {
    u32::from(rules::refusal::number(refusal))
}

// The place and the number of the first refusal, or the number alone; and the part that is left, with its rooms.
fn reduced_sum(sum: u32, answer: Result<Reduced, Refusal>) -> u32 {
    let none = [0; LISTED];
    match answer {
        Ok(reduced) => {
            let found = fold(fold(sum, u32::from(reduced.place)), number(reduced.refusal));
            // (a name, since two of its fields are read)
            let part = reduced.part;
            let counted = fold(found, u32::from(part.count));
            byte_sum(byte_sum(counted, &part.places), &reduced.rooms)
        }
        Err(r) => byte_sum(byte_sum(fold(fold(sum, number(r)), 0), &none), &none),
    }
}

pub fn run(topology: Topology, times: u32, script: &[u8]) -> u32 {
    let mut sum = 0;
    for i in 0..times {
        let mut calls = [Record::Recover; LISTED];
        let count = list(script, i, &mut calls);
        let answer = reduction::reduce(topology, &calls[..count.min(LISTED)]);
        sum = reduced_sum(sum, answer);
    }
    sum
}
