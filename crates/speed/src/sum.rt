// The checksum: each value is folded in as 31 × sum + value, modulo 2^32. (Of an outcome and of a step each case has a
// value of its own, so that it is a match.)
use model::{CHANNELS, Channel, Entry, Outcome, Record, State, Step};
use rules::channel;

pub fn fold(sum: u32, value: u32) -> u32 {
    rules::word::product(sum).wrapping_add(value)
}

pub fn outcome_code(outcome: Outcome) -> u32 {
    match outcome {
        Outcome::Done => 1,
        Outcome::Sent(room) => 200 + room as u32,
        Outcome::Received(body) => body,
        Outcome::ReceivedMarker => 2,
        Outcome::Refused(r) => 100 + rules::refusal::number(r) as u32,
        Outcome::PowerLost => 4,
    }
}

pub fn record_code(r: Record) -> u32 {
    let Record::Call(step) = r else {
        return 9;
    };
    match step {
        Step::Send { channel, body } => fold(channel as u32, body),
        Step::Receive { channel } => 1000 + channel as u32,
        Step::Begin => 3,
        Step::PhysicalCheckpoint { process } => 2000 + process as u32,
        Step::LogicalCheckpoint { process } => 3000 + process as u32,
        Step::SendMarker { channel } => 4000 + channel as u32,
        Step::Commit => 7,
        Step::Abort => 8,
    }
}

// A message's tag and body; a marker counts as 2, and has body 0.
fn entry_sum(sum: u32, e: Entry) -> u32 {
    match e {
        Entry::Message { body, tag } => fold(fold(sum, tag as u32), body),
        Entry::Marker => fold(fold(sum, 2), 0),
    }
}

// The body of the entry in a place, 0 where there is none.
pub fn body_at(c: Channel, i: u8) -> u32 {
    if channel::length(c) <= i {
        return 0;
    }
    match channel::entry_at(c, i) {
        Entry::Message { body, tag: _ } => body,
        Entry::Marker => 0,
    }
}

fn channel_sum(sum: u32, c: Channel) -> u32 {
    let entries = channel::length(c);
    let mut r = fold(sum, u32::from(entries));
    for i in 0..entries {
        r = entry_sum(r, channel::entry_at(c, i));
    }
    r
}

pub fn cell_sum(sum: u32, cells: &[u32]) -> u32 {
    cells.iter().fold(sum, |r, &cell| fold(r, cell))
}

// The line, the words, the channels and the store.
pub fn whole_sum(sum: u32, s: State, store: &[u32]) -> u32 {
    let mut r = cell_sum(fold(sum, s.round.line), &s.words);
    for c in 0..CHANNELS {
        r = channel_sum(r, channel::held(s.places[c], s.lengths[c]));
    }
    cell_sum(r, store)
}

pub fn byte_sum(sum: u32, bytes: &[u8]) -> u32 {
    bytes.iter().fold(sum, |r, &byte| fold(r, u32::from(byte)))
}
