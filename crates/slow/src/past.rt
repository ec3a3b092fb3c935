// What the calls so far did, by their answers, in their order. (Kinds stay numbers: judge.rt says why. A call, a step
// and an outcome are told case by case, as `fields_of` and `heard` of the definitions have them.)
ghost use Rattle.std.specs.Prelude.{◌≡◌, cond, ◌≤◌, length};
ghost use Rattle.model.specs.declared.Record.TheVariants as records;
ghost use Rattle.model.specs.Outcome.{said_by};
ghost use Rattle.model.specs.Heard.{heard, accepted};
ghost use Rattle.model.specs.Record.{fields_of};
ghost use Rattle.account.specs.Deeds.{deed_by, body_heard, marker_heard};
ghost use Rattle.slow.specs.Replays.{call_said};
ghost use Rattle.slow.specs.Kept.{past_of, called, nothing, unheard, latest, deed_for};

use crate::deeds::Past;
use crate::{CallAnswer, CallOutcome};
use account::Deed;
use model::{LISTED, Outcome, Record, Step};

// A deed that is none.
fn nothing() -> Deed
    ensures { result ≡ nothing }
{
    unheard(0, 0, 0, 0)
}

// A call of this kind, before it is answered.
fn unheard(kind: u8, process: u8, channel: u8, body: u32) -> Deed
    ensures { result ≡ called kind process channel body }
{
    Deed {
        kind,
        process,
        channel,
        body,
        marker: false,
        made: 0,
    }
}

// A step's kind, 1 to 8, and its fields.
#[tactic(auto, unfolding(account::specs::Deeds::deed_by, model::specs::Record::fields_of))]
fn step(x: Step) -> Deed
    ensures { result ≡ unheard (fields_of (records.Call x)) }
{
    match x {
        Step::Send { channel, body } => unheard(1, 0, channel, body),
        Step::Receive { channel } => unheard(2, 0, channel, 0),
        Step::Begin => unheard(3, 0, 0, 0),
        Step::PhysicalCheckpoint { process } => unheard(4, process, 0, 0),
        Step::LogicalCheckpoint { process } => unheard(5, process, 0, 0),
        Step::SendMarker { channel } => unheard(6, 0, channel, 0),
        Step::Commit => unheard(7, 0, 0, 0),
        Step::Abort => unheard(8, 0, 0, 0),
    }
}

// A call's; kind 9 is the recover.
#[tactic(auto, unfolding(account::specs::Deeds::deed_by, model::specs::Record::fields_of))]
pub fn call(content: Record) -> Deed
    ensures { result ≡ unheard (fields_of content) }
{
    match content {
        Record::Call(x) => step(x),
        Record::Recover => unheard(9, 0, 0, 0),
    }
}

// By a step's outcome: kind 0 where it was not accepted, the body received, and whether a marker was.
fn kind_after(outcome: Outcome, kind: u8) -> u8
    ensures { result ≡ cond (accepted (said_by outcome)) kind 0 }
{
    match outcome {
        Outcome::Refused(_) | Outcome::PowerLost => 0,
        _ => kind,
    }
}

fn body_after(outcome: Outcome, body: u32) -> u32
    ensures { result ≡ body_heard (heard (said_by outcome)) body }
{
    match outcome {
        Outcome::Received(received) => received,
        _ => body,
    }
}

fn marker_after(outcome: Outcome) -> bool
    ensures { result ≡ marker_heard (heard (said_by outcome)) }
{
    matches!(outcome, Outcome::ReceivedMarker)
}

// What a call did, by its answer.
#[tactic(auto, unfolding(account::specs::Deeds::deed_by))]
fn done(content: Record, answer: CallAnswer) -> Deed
    ensures { result ≡ deed_by (fields_of content) (heard (call_said answer.outcome)) answer.made }
{
    let asked = call(content);
    // (a name, since it stands in both cases)
    let made = answer.made;
    match answer.outcome {
        CallOutcome::Step(said) => Deed {
            kind: kind_after(said, asked.kind),
            body: body_after(said, asked.body),
            marker: marker_after(said),
            made,
            ..asked
        },
        CallOutcome::Line(_) => Deed { made, ..asked },
    }
}

// What the calls did that have these answers.
pub fn of(calls: &[Record], answers: &[CallAnswer]) -> Past
    requires { (length answers.now ≤ 256) × (length answers.now ≤ length calls.now) }
    ensures { past_of result ≡ latest (length answers.now) (deed_for calls.now answers.now) }
{
    let mut deeds = [nothing(); LISTED];
    for i in 0..answers.len() {
        deeds[i] = done(calls[i], answers[i]);
    }
    Past {
        deeds,
        count: answers.len() as u16,
    }
}
