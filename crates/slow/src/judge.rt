// What the next call is answered in a state, with full current: the condition of each refusal, in document 01's order,
// then what the step says and how many writes it makes. A call is a deed that isn't answered yet. Nothing is changed
// here. (State and call stay two, as the account's definitions take them.)
ghost use Rattle.std.specs.Prelude.{◌≡◌, ◌-◌, ◌+◌};
ghost use Rattle.model.specs.Outcome.{refusal_of, said_by};
ghost use Rattle.model.specs.State.{view};
ghost use Rattle.account.specs.Judging.{no_such, no_line_left, nothing_there, first_on, closed_before, no_room};
ghost use Rattle.account.specs.Judging.{logs_needed, log_full, turned_down, received, says, writes_made};
ghost use Rattle.slow.specs.Replays.{call_said};
ghost use Rattle.slow.specs.Kept.{asked};
ghost use Rattle.slow.specs.Parts.{Judges};

use crate::{CallAnswer, CallOutcome, logs, look, now};
use account::{Deed, NeededLogs};
use model::{Entry, Outcome, PLACES, Refusal, State};

// How many entries a channel holds at most.
const ROOM: u8 = PLACES as u8;

// 8, no such process or channel. (Kinds stay document 01's numbers here and below: the theorems of the second account,
// the crate `account`, are said of them.)
#[tactic(auto, unfolding(account::specs::Judging::no_such, model::specs::State::view))]
fn no_such(s: State, call: Deed) -> bool
    ensures { result ≡ no_such (view s) (asked call) }
{
    match call.kind {
        1 | 2 | 6 => s.topology.channels <= call.channel,
        4 | 5 => s.topology.processes <= call.process,
        _ => false,
    }
}

// 13, no line is left.
#[tactic(auto, unfolding(account::specs::Judging::no_line_left, model::specs::State::view))]
fn no_line_left(s: State, call: Deed) -> bool
    ensures { result ≡ no_line_left (view s) (asked call) }
{
    call.kind == 3 && s.round.line == u32::MAX
}

// 10, the channel is empty.
#[tactic(auto, using(model::proofs::laws::ChannelLaws::entries_count), unfolding(account::specs::Judging::nothing_there, model::specs::State::view))]
fn nothing_there(s: State, call: Deed) -> bool
    ensures { result ≡ nothing_there (view s) (asked call) }
{
    call.kind == 2 && look::at(&s.lengths, call.channel, 0) == 0
}

// The first entry of a channel.
#[tactic(auto, unfolding(account::specs::Judging::first_on, model::specs::State::view))]
fn first_on(s: State, c: u8) -> Entry
    ensures { result ≡ first_on (view s) c }
{
    look::first(s.places, s.lengths, c)
}

// 14, a marker on a channel that is closed.
#[tactic(auto, unfolding(account::specs::Judging::closed_before, model::specs::State::view, model::specs::State::view_progress))]
fn closed_before(s: State, call: Deed) -> bool
    ensures { result ≡ closed_before (view s) (asked call) }
{
    call.kind == 2
        && now::is_logical(s.round.phase)
        && matches!(first_on(s, call.channel), Entry::Marker)
        && look::at(&s.flags.closed, call.channel, false)
}

// 9, the channel is full.
#[tactic(auto, using(model::proofs::laws::ChannelLaws::entries_count), unfolding(account::specs::Judging::no_room, model::specs::State::view))]
fn no_room(s: State, call: Deed) -> bool
    ensures { result ≡ no_room (view s) (asked call) }
{
    matches!(call.kind, 1 | 6) && ROOM <= look::at(&s.lengths, call.channel, 0)
}

// The logs that a receive on channel c needs.
#[tactic(auto, unfolding(account::specs::Judging::logs_needed, model::specs::Topology::receiver, model::specs::State::view))]
fn logs_needed(s: State, c: u8) -> NeededLogs
    ensures { result ≡ logs_needed (view s) c }
{
    let p = look::at(&s.topology.to, c, 0);
    logs::of(s, p, first_on(s, c))
}

// 11, a log that is needed is full.
#[tactic(auto, unfolding(account::specs::Judging::log_full, model::specs::Topology::receiver, model::specs::State::view, model::specs::State::view_counts))]
fn log_full(s: State, call: Deed) -> bool
    ensures { result ≡ log_full (view s) (asked call) }
{
    let p = look::at(&s.topology.to, call.channel, 0);
    let entries = look::at(&s.counts.channels, call.channel, 0);
    let messages = look::at(&s.counts.messages, p, 0);
    call.kind == 2 && logs::full(logs_needed(s, call.channel), entries, messages)
}

// The first check that refuses the call.
#[tactic(auto, unfolding(account::specs::Judging::turned_down, model::specs::Outcome::refusal_of))]
fn refusal(s: State, call: Deed) -> Result<(), Refusal>
    ensures { refusal_of result ≡ turned_down (view s) (asked call) }
{
    if no_such(s, call) {
        return Err(Refusal::NoSuch);
    }
    if now::refuses(s, call) {
        return Err(Refusal::NotNow);
    }
    if no_line_left(s, call) {
        return Err(Refusal::LastLine);
    }
    if nothing_there(s, call) {
        return Err(Refusal::ChannelEmpty);
    }
    if closed_before(s, call) {
        return Err(Refusal::MarkerOnClosed);
    }
    if no_room(s, call) {
        return Err(Refusal::ChannelFull);
    }
    if log_full(s, call) {
        return Err(Refusal::LogFull);
    }
    Ok(())
}

// What a receive says. (As `rules::reaction` has it: the slow engine shares no rule with the other but two, by lib.rt.)
fn received(e: Entry) -> Outcome
    ensures { said_by result ≡ received e }
{
    match e {
        Entry::Message { body, tag: _ } => Outcome::Received(body),
        Entry::Marker => Outcome::ReceivedMarker,
    }
}

// How many entries a channel can still hold after one more.
fn room_after(length: u8) -> u8
    ensures { result ≡ 8 - (length + 1) }
{
    (ROOM - 1).saturating_sub(length)
}

// What an accepted call says.
#[tactic(auto, using(model::proofs::laws::ChannelLaws::entries_count), unfolding(account::specs::Judging::says, model::specs::State::view))]
fn says(s: State, call: Deed) -> CallOutcome
    ensures { call_said result ≡ says (view s) (asked call) }
{
    match call.kind {
        1 => {
            let length = look::at(&s.lengths, call.channel, 0);
            CallOutcome::Step(Outcome::Sent(room_after(length)))
        }
        2 => CallOutcome::Step(received(first_on(s, call.channel))),
        9 => CallOutcome::Line(s.round.line),
        _ => CallOutcome::Step(Outcome::Done),
    }
}

// And how many writes it makes.
#[tactic(auto, unfolding(account::specs::Judging::writes_made, model::specs::State::view))]
fn writes(s: State, call: Deed) -> u32
    ensures { result ≡ writes_made (view s) (asked call) }
{
    match call.kind {
        2 => logs::writes(logs_needed(s, call.channel)),
        3 => s.topology.processes as u32 + s.topology.channels as u32,
        4 | 7 => 1,
        _ => 0,
    }
}

// The answer to a call.
#[tactic(auto, unfolding(model::specs::Outcome::refusal_of))]
pub fn answer(s: State, call: Deed) -> CallAnswer
    ensures { Judges (view s) (asked call) result }
{
    match refusal(s, call) {
        Ok(()) => CallAnswer {
            outcome: says(s, call),
            made: writes(s, call),
        },
        Err(r) => CallAnswer {
            outcome: CallOutcome::Step(Outcome::Refused(r)),
            made: 0,
        },
    }
}
