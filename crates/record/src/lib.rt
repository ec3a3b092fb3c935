// Records: the reader and the writer, each equal to the definitions of model's specs/Record.antt.
#![tactic(auto)]

mod field;
mod kind;
mod pack;
mod parse;

ghost use Rattle.std.specs.Prelude.{◌≡◌, []};
ghost use Rattle.std.proofs.Math.Option.{some};
ghost use Rattle.model.specs.Record.{read_record};
ghost use Rattle.record.specs.RecordRead.{record_said, record_in, remaining};
ghost use Rattle.record.specs.Written.{bytes_of, written};

use crate::pack::{with_channel, with_process};
use crate::parse::parse;
pub use field::{word, word_bytes};
pub use kind::step_of;
use model::{Record, Refusal, Step};

// The kind of a record that is no step.
pub const RECOVER: u8 = 9;

// How many bytes the longest record has: a send's map, kind, channel and 4 bytes of body.
pub const LONGEST: usize = 7;

// A record's bytes and how many they are; 0 in the places after them. An array with a count: memory is fixed here, and
// nothing is put on a heap.
#[derive(Clone, Copy)]
pub struct Written {
    pub bytes: [u8; LONGEST],
    pub count: usize,
}

// The record that the bytes begin with, or refusal 7.
#[tactic(auto, unfolding(crate::specs::RecordRead::record_in))]
pub fn read(bytes: &[u8]) -> Result<Record, Refusal>
    ensures { record_said result ≡ record_in (read_record bytes.now) }
{
    parse(bytes)
        .map(|(record, _)| record)
        .ok_or(Refusal::Malformed)
}

// The bytes after that record; all of them where they are refused.
#[tactic(auto, unfolding(crate::specs::RecordRead::remaining))]
pub fn rest(bytes: &[u8]) -> &[u8]
    ensures { result.now ≡ remaining (read_record bytes.now) bytes.now }
{
    parse(bytes).map_or(bytes, |(_, rest)| rest)
}

// A record's bytes. They read back as that record, with nothing left. (A match: each step has fields of its own.)
#[tactic(auto, unfolding(crate::specs::Written::written, model::specs::Record::write_record, model::specs::Record::fields_of,),)]
pub fn write(r: Record) -> Written
    ensures value { result ≡ written r }
    ensures result_value { read_record (bytes_of result) ≡ some (r, []) }
{
    match r {
        Record::Call(Step::Send { channel, body }) => with_channel(1, channel, body),
        Record::Call(Step::Receive { channel }) => with_channel(2, channel, 0),
        Record::Call(Step::Begin) => with_process(3, 0),
        Record::Call(Step::PhysicalCheckpoint { process }) => with_process(4, process),
        Record::Call(Step::LogicalCheckpoint { process }) => with_process(5, process),
        Record::Call(Step::SendMarker { channel }) => with_channel(6, channel, 0),
        Record::Call(Step::Commit) => with_process(7, 0),
        Record::Call(Step::Abort) => with_process(8, 0),
        Record::Recover => with_process(RECOVER, 0),
    }
}
