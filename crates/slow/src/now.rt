// Refusal 12, "not now": the conditions that the round puts on each step.
ghost use Rattle.std.specs.Prelude.{◌≡◌};
ghost use Rattle.model.specs.Notation.{all_below};
ghost use Rattle.model.specs.State.{view};
ghost use Rattle.account.specs.Judging.{in_idle, in_logical, is_next, physical_now, logical_now, marker_now, ready};
ghost use Rattle.account.specs.Judging.{commit_now, not_now};
ghost use Rattle.slow.specs.Kept.{asked};

use crate::look;
use account::Deed;
use model::{Phase, State};

// (These three are as `rules::phase` has them, for the reason of lib.rt.)
fn is_idle(phase: Phase) -> bool
    ensures { result ≡ in_idle phase }
{
    matches!(phase, Phase::Idle)
}

pub fn is_logical(phase: Phase) -> bool
    ensures { result ≡ in_logical phase }
{
    matches!(phase, Phase::Logical)
}

fn is_next(phase: Phase, p: u8) -> bool
    ensures { result ≡ is_next phase p }
{
    matches!(phase, Phase::Physical(next) if next == p)
}

// A physical checkpoint: an early process in its turn, a late one once, after its mark.
#[tactic(auto, unfolding(account::specs::Judging::physical_now, model::specs::State::view, model::specs::State::view_progress, model::specs::Topology::is_late))]
fn physical_now(s: State, p: u8) -> bool
    ensures { result ≡ physical_now (view s) p }
{
    if look::late(s.topology.late, p) {
        return is_logical(s.round.phase)
            && look::at(&s.flags.logical, p, false)
            && !look::at(&s.flags.saved, p, false);
    }
    is_next(s.round.phase, p)
}

// A logical checkpoint.
#[tactic(auto, unfolding(account::specs::Judging::logical_now, model::specs::State::view, model::specs::State::view_progress))]
fn logical_now(s: State, p: u8) -> bool
    ensures { result ≡ logical_now (view s) p }
{
    is_logical(s.round.phase)
        && !look::at(&s.flags.logical, p, false)
        && (p == 0 || look::at(&s.flags.logical, 0, false))
}

// A marker.
#[tactic(auto, unfolding(account::specs::Judging::marker_now, model::specs::State::view, model::specs::State::view_progress, model::specs::Topology::sender))]
fn marker_now(s: State, c: u8) -> bool
    ensures { result ≡ marker_now (view s) c }
{
    let sender = look::at(&s.topology.from, c, 0);
    is_logical(s.round.phase)
        && look::at(&s.flags.logical, sender, false)
        && !look::at(&s.flags.sent, c, false)
}

// Whether process p has its logical checkpoint and, being late, its physical one.
#[tactic(auto, unfolding(account::specs::Judging::ready, model::specs::State::view, model::specs::State::view_progress, model::specs::Topology::is_late))]
fn is_ready(s: State, p: u8) -> bool
    ensures { result ≡ ready (view s) p }
{
    look::at(&s.flags.logical, p, false)
        && (!look::late(s.topology.late, p) || look::at(&s.flags.saved, p, false))
}

fn all_ready(s: State) -> bool
    ensures { result ≡ all_below (view s).topology.processes (ready (view s)) }
{
    (0..s.topology.processes).all(|p| is_ready(s, p))
}

fn all_closed(s: State) -> bool
    ensures { result ≡ all_below (view s).topology.channels (view s).progress.closed }
{
    (0..s.topology.channels).all(|c| look::at(&s.flags.closed, c, false))
}

// A commit.
#[tactic(auto, unfolding(account::specs::Judging::commit_now, model::specs::State::view, model::specs::State::view_progress))]
fn commit_now(s: State) -> bool
    ensures { result ≡ commit_now (view s) }
{
    is_logical(s.round.phase) && all_ready(s) && all_closed(s)
}

// "not now, by the conditions above": a match on the kind, as `not_now` has it
#[tactic(auto, unfolding(account::specs::Judging::not_now, model::specs::State::view))]
pub fn refuses(s: State, call: Deed) -> bool
    ensures { result ≡ not_now (view s) (asked call) }
{
    match call.kind {
        3 => !is_idle(s.round.phase),
        4 => !physical_now(s, call.process),
        5 => !logical_now(s, call.process),
        6 => !marker_now(s, call.channel),
        7 => !commit_now(s),
        8 => is_idle(s.round.phase),
        _ => false,
    }
}
