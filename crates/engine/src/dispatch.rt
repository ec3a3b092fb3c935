// The eight steps behind one function.
ghost use Rattle.std.specs.Prelude.{◌≡◌, ◌≤◌, length};
ghost use Rattle.model.specs.Topology.{channel_limit};
ghost use Rattle.model.specs.Layout.{store_cells};
ghost use Rattle.model.specs.State.{view};
ghost use Rattle.model.specs.Change.{with_channel, plain_channels};
ghost use Rattle.engine.specs.Answers.{Answers};
ghost use Rattle.engine.specs.Spots.{admission_of, Seen, Within, Turns, put_back, answer_of};

use crate::spot::{Spot, Stop, Subject, Turn};
use crate::{
    abort, begin, commit, logical_checkpoint, physical_checkpoint, receive, send, send_marker,
    spot, write,
};
use model::{Answer, Outcome, PROCESSES, Refusal, State, Step};
use rules::{channel, layout, sound};

// Refusals 15, 6 and 8, in this order; and the subject of a step that is none of them.
fn admit(state: &State, step: Step, cells: usize) -> Result<Subject, Refusal>
    ensures { result ≡ admission_of state.now step cells }
{
    if !sound::sound(*state) {
        return Err(Refusal::Unsound);
    }
    if cells < layout::STORE_CELLS {
        return Err(Refusal::ShortStore);
    }
    spot::find(&state.topology, step)
}

// A step's own part, on its spot: a match, since each step has fields of its own, and some need no store. (That the
// store is long enough is asked here and of each step that writes: whoever calls lends any store, so that a type that
// says it would be made of the slice anew for every call.)
fn turn(step: Step, s: Spot, store: &mut [u32], budget: u32) -> Result<Turn, Stop>
    requires { Seen step s × (store_cells ≤ length store.old) }
    ensures { Turns s step store.old budget result store.new }
{
    match step {
        Step::Send { body, .. } => Ok(send::send(s, body)?),
        Step::Receive { .. } => receive::receive(s, store, budget),
        Step::Begin => begin::begin(s, store, budget),
        Step::PhysicalCheckpoint { .. } => {
            physical_checkpoint::physical_checkpoint(s, store, budget)
        }
        Step::LogicalCheckpoint { .. } => Ok(logical_checkpoint::logical_checkpoint(s)?),
        Step::SendMarker { .. } => Ok(send_marker::send_marker(s)?),
        Step::Commit => commit::commit(s, store, budget),
        Step::Abort => Ok(abort::abort(s)?),
    }
}

// The planned channels with their messages alone, in order and with tag 0.
fn plain_channels(state: &mut State)
    requires { state.old.topology.channels ≤ channel_limit }
    ensures { view state.new ≡ with_channel (plain_channels (view state.old)) (view state.old) }
{
    for c in 0..state.topology.channels as usize {
        let plain = channel::plain(channel::held(state.places[c], state.lengths[c]));
        state.places[c] = channel::places(plain);
        state.lengths[c] = channel::used(plain);
    }
}

// The state with a turn at this subject written back.
fn write_back(state: &mut State, at: Subject, turn: Turn)
    requires { Within state.old.topology at }
    ensures { view state.new ≡ put_back at turn (view state.old) }
{
    let c = at.channel as usize;
    let p = at.process as usize;
    let new = turn.spot;
    state.round = new.round;
    state.words[p] = new.word;
    write::flags(&mut state.flags, turn.reset.flags, at, new);
    write::counts(&mut state.counts, turn.reset.counts, at, new);
    if turn.reset.tags {
        state.tags = [false; PROCESSES];
        plain_channels(state);
    } else {
        state.tags[p] = new.tag;
        state.places[c] = channel::places(new.held);
        state.lengths[c] = channel::used(new.held);
    }
}

// The step on a state that it leaves as it was unless it accepts the step.
fn make(state: &mut State, step: Step, store: &mut [u32], budget: u32) -> Result<Turn, Stop>
    ensures { Answers state.old step store.old budget (answer_of budget result state.new) store.new }
{
    let at = admit(state, step, store.len())?;
    let s = spot::read(state, step, at);
    let turn = turn(step, s, store, budget)?;
    write_back(state, at, turn);
    Ok(turn)
}

// A step of any kind, of any state and any store, with the number of writes that the power lasts for.
pub fn step(mut state: State, step: Step, store: &mut [u32], budget: u32) -> Answer
    ensures { Answers state step store.old budget result store.new }
{
    let (outcome, made) = match make(&mut state, step, store, budget) {
        Ok(turn) => (turn.outcome, turn.made),
        Err(Stop::Refused(refusal)) => (Outcome::Refused(refusal), 0),
        Err(Stop::PowerLost) => (Outcome::PowerLost, budget),
    };
    Answer {
        outcome,
        made,
        state,
    }
}
