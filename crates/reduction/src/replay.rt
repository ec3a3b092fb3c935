// A part of a list, run from setup with full current, up to its first refusal.
ghost use Rattle.std.specs.Prelude.{◌≡◌};
ghost use Rattle.std.proofs.Math.Option.{none};
ghost use Rattle.model.specs.CallList.{replies};
ghost use Rattle.model.specs.Outcome.{said_by};
ghost use Rattle.model.specs.Reduction.{calls_at};
ghost use Rattle.model.specs.Topology.{topology_refusal};
ghost use Rattle.reduction.specs.Parts.{kept, Held};
ghost use Rattle.reduction.specs.Replays.{Replays, replies_from, Says};

use crate::part;
use crate::part::Part;
use model::{Answer, FULL_BUDGET, LISTED, Outcome, Record, Refusal, State, Topology};
use rules::layout::STORE_CELLS;

// A refused call: which of those that are run it is, counted from 0, and its refusal.
#[derive(Clone, Copy)]
pub struct Refused {
    pub place: u16,
    pub refusal: Refusal,
}

// How a run ends: at a refused call, or with none refused. With it comes how much room each call before that said is
// left: 0 for one that is no send, and in the places after.
#[derive(Clone, Copy)]
pub struct Replayed {
    pub refused: Option<Refused>,
    pub rooms: [u8; LISTED],
}

// How much room a step's outcome says is left, which is 0 of one that is no send; or its refusal: a match on the three
// kinds of outcome that there are for this.
#[tactic(auto, unfolding(model::specs::Outcome::refused_with, model::specs::Outcome::refusal_of))]
fn room(outcome: Outcome) -> Result<u8, Refusal>
    ensures { Says (said_by outcome) result }
{
    match outcome {
        Outcome::Sent(left) => Ok(left),
        Outcome::Refused(r) => Err(r),
        _ => Ok(0),
    }
}

// The calls of a part, from this state and store on. (Each call stands in the loop, and the answer hands its state on:
// a function for one call would cost two copies of the state, a state beside the answer one.)
fn run(topology: Topology, list: &[Record], part: Part, first: State, store: &mut [u32]) -> Replayed
    requires { Held part }
    ensures { Replays (replies_from topology first store.old (calls_at list.now (kept part))) result }
{
    let mut answer = Answer {
        outcome: Outcome::Done,
        made: 0,
        state: first,
    };
    let mut rooms = [0; LISTED];
    for i in 0..part.count {
        let said = match part::nth_call(list, part.places[i as usize]) {
            Record::Call(step) => {
                answer = engine::step(answer.state, step, store, FULL_BUDGET);
                room(answer.outcome)
            }
            Record::Recover => match recovery::recover(topology, store) {
                Ok(state) => {
                    answer.state = state;
                    Ok(0)
                }
                Err(r) => Err(r),
            },
        };
        match said {
            Ok(left) => rooms[i as usize] = left,
            Err(refusal) => {
                let refused = Some(Refused { place: i, refusal });
                return Replayed { refused, rooms };
            }
        }
    }
    Replayed {
        refused: None,
        rooms,
    }
}

// In a store of its own, which starts as zeros each time.
pub fn replay(topology: Topology, list: &[Record], part: Part) -> Replayed
    requires { Held part × (topology_refusal topology ≡ none) }
    ensures { Replays (replies topology (calls_at list.now (kept part))) result }
{
    let mut store = [0u32; STORE_CELLS];
    let first = engine::initialize(topology, &mut store).unwrap();
    run(topology, list, part, first, &mut store)
}
