// The slow engine (document 02, M-106): it keeps the list of calls with their answers and nothing else, and each time
// works out from that list where the head stands, and from there the next answer. No function of `engine` or `recovery`
// is called, and no step: shared with them are the topology's check and the word rule (`rules::topology` and
// `rules::word`), and nothing else, so that slow has its own of each leaf that it needs.
#![tactic(auto)]

mod contents;
mod deeds;
mod events;
mod feed;
mod histories;
mod judge;
mod logs;
mod look;
mod now;
mod past;
mod round;
mod standing;
mod tests;
mod told;

ghost use Rattle.std.specs.Prelude.{◌≡◌, ◌<◌, ◌≤◌, length, replicate};
ghost use Rattle.std.proofs.Math.Option.{none};
ghost use Rattle.model.specs.CallList.{call_at};
ghost use Rattle.model.specs.Topology.{topology_refusal};
ghost use Rattle.model.specs.State.{view};
ghost use Rattle.slow.specs.Replays.{unanswered, Replays};
ghost use Rattle.slow.specs.SoFar.{Answered, AnsweredSoFar, Says, world_at, reply_at};

use model::{LISTED, Outcome, Record, Refusal, State, Topology};

// What a call of a list is answered: a step's outcome, or the line of a recover, and how many writes it made. (No
// Result: both are answers, and `call_said` has a case for each.)
#[derive(Clone, Copy)]
pub enum CallOutcome {
    Step(Outcome),
    Line(u32),
}

#[derive(Clone, Copy)]
pub struct CallAnswer {
    pub outcome: CallOutcome,
    pub made: u32,
}

// The answer to each call, in the list's order, and the state after the last. Places from count on are unused: Done,
// and 0 writes.
#[derive(Clone, Copy)]
pub struct Replayed {
    // no heap here, so the answers have room for the longest list, and a count
    pub answers: [CallAnswer; LISTED],
    pub count: u16,
    pub state: State,
}

fn no_answers() -> [CallAnswer; LISTED]
    ensures { result ≡ replicate 256 unanswered }
{
    let unused = CallAnswer {
        outcome: CallOutcome::Step(Outcome::Done),
        made: 0,
    };
    [unused; LISTED]
}

// The state after the calls that have these answers: all of it worked out anew. (That the topology passes its checks is
// asked here and below: it is model's type, of which `replay` takes any; and that they are few enough, of a slice.)
#[tactic(auto, using(crate::proofs::AsRun::told_ready, crate::proofs::AsRun::told_state))]
fn after(topology: Topology, calls: &[Record], answers: &[CallAnswer]) -> State
    requires accepted { topology_refusal topology ≡ none }
    requires few { length answers.now ≤ 256 }
    requires listed { length answers.now ≤ length calls.now }
    requires answered { Answered topology calls.now answers.now }
    ensures { view result ≡ (world_at topology (call_at calls.now) (length answers.now)).state }
{
    standing::of(topology, past::of(calls, answers))
}

// The next answer.
fn next(topology: Topology, calls: &[Record], answers: &[CallAnswer]) -> CallAnswer
    requires accepted { topology_refusal topology ≡ none }
    requires few { length answers.now ≤ 256 }
    requires listed { length answers.now < length calls.now }
    requires answered { Answered topology calls.now answers.now }
    ensures { Says result (reply_at topology (call_at calls.now) (length answers.now)) }
{
    let s = after(topology, calls, answers);
    judge::answer(s, past::call(calls[answers.len()]))
}

// The answers to all of them.
fn answers(topology: Topology, calls: &[Record]) -> [CallAnswer; LISTED]
    requires accepted { topology_refusal topology ≡ none }
    requires few { length calls.now ≤ 256 }
    ensures { AnsweredSoFar topology calls.now (length calls.now) result }
{
    let mut told = no_answers();
    for i in 0..calls.len() {
        told[i] = next(topology, calls, &told[..i]);
    }
    told
}

// Of any topology and any list, however long.
#[tactic(auto, using(crate::proofs::Listing::too_long, crate::proofs::Listing::by_topology), unfolding(model::specs::Outcome::refusal_of))]
pub fn replay(topology: Topology, list: &[Record]) -> Result<Replayed, Refusal>
    ensures { Replays topology list.now result }
{
    if LISTED < list.len() {
        return Err(Refusal::LongList);
    }
    rules::topology::check(topology)?;
    let answers = answers(topology, list);
    let state = after(topology, list, &answers[..list.len()]);
    Ok(Replayed {
        answers,
        count: list.len() as u16,
        state,
    })
}
