// The table of kinds: the step that each is, and which fields a record of it may carry. A kind is a number here, and no
// enum: this is the table that makes it a step, and an enum of the nine kinds would be a second one before it. Kind,
// process, channel and body come one by one, as they are read: a struct of the four would be made for one call.
ghost use Rattle.std.specs.Prelude.{◌≡◌};
ghost use Rattle.model.specs.Record.{record_of};
ghost use Rattle.record.specs.StepRead.{step_said, step_in, step_of};
ghost use Rattle.record.specs.Kind.{fields, is_record, found};

use crate::RECOVER;
use model::{Record, Refusal, Step};

// Whether it is a kind, and the fields that the kind doesn't use are absent.
#[tactic(auto, unfolding(model::specs::Record::record_of, model::specs::Record::provided, model::specs::Record::absent, crate::specs::Kind::is_record,),)]
fn fits(kind: u8, process: u8, channel: u8, body: u32) -> bool
    ensures { result ≡ is_record (record_of (fields kind process channel body)) }
{
    match kind {
        1 => process == 0,
        2 | 6 => process == 0 && body == 0,
        4 | 5 => channel == 0 && body == 0,
        3 | 7..=9 => process == 0 && channel == 0 && body == 0,
        _ => false,
    }
}

// The step of a kind, with only the fields that it uses, whatever the others are; refusal 7 for a kind of no step.
#[tactic(auto, unfolding(crate::specs::StepRead::step_of, crate::specs::StepRead::step_in))]
pub fn step_of(kind: u8, process: u8, channel: u8, body: u32) -> Result<Step, Refusal>
    ensures { step_said result ≡ step_in (step_of kind process channel body) }
{
    match kind {
        1 => Ok(Step::Send { channel, body }),
        2 => Ok(Step::Receive { channel }),
        3 => Ok(Step::Begin),
        4 => Ok(Step::PhysicalCheckpoint { process }),
        5 => Ok(Step::LogicalCheckpoint { process }),
        6 => Ok(Step::SendMarker { channel }),
        7 => Ok(Step::Commit),
        8 => Ok(Step::Abort),
        _ => Err(Refusal::Malformed),
    }
}

// The record of a kind and its fields, an absent one 0; none where they don't fit.
#[tactic(auto, using(crate::proofs::KindLaws::rows), unfolding(model::specs::Record::record_of))]
pub fn record_of(kind: u8, process: u8, channel: u8, body: u32) -> Option<Record>
    ensures { found result ≡ record_of (fields kind process channel body) }
{
    if !fits(kind, process, channel, body) {
        return None;
    }
    if kind == RECOVER {
        return Some(Record::Recover);
    }
    step_of(kind, process, channel, body).ok().map(Record::Call)
}
