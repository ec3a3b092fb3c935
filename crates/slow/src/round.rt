// The round, as the past tells it. (A match on a deed's kind has the cases that the account's definitions have.)
ghost use Rattle.std.specs.Prelude.{◌≡◌, cond, not, ◌+◌};
ghost use Rattle.model.specs.Topology.{is_late};
ghost use Rattle.account.specs.Round.{copying_from, phase_after, turned_after, line_of, phase_of, turned};
ghost use Rattle.slow.specs.Kept.{past_of};

use crate::deeds::Past;
use crate::{look, tests};
use account::Deed;
use model::{Phase, Topology};

// The last line finished: how many commits there were.
pub fn line(past: Past) -> u16
    ensures { result ≡ line_of (past_of past) }
{
    past.done().iter().filter(|d| tests::did(**d, 7)).count() as u16
}

// Where the physical checkpoints go on: at the first early process from this one on, or, where there is none, in the
// logical phase.
fn copying_from(topology: Topology, from: u8) -> Phase
    ensures { result ≡ copying_from topology from }
{
    (from..topology.processes)
        .find(|p| !look::late(topology.late, *p))
        .map_or(Phase::Logical, Phase::Physical)
}

// The phase after a process's physical checkpoint: a late one's doesn't turn it.
fn after_copy(topology: Topology, process: u8, before: Phase) -> Phase
    ensures { result ≡ cond (not (is_late topology process)) (copying_from topology (process + 1)) before }
{
    if look::late(topology.late, process) {
        return before;
    }
    // There is no process after the last number.
    match process.checked_add(1) {
        Some(next) => copying_from(topology, next),
        None => Phase::Logical,
    }
}

// The phase with one deed more.
fn phase_after(topology: Topology, d: Deed, before: Phase) -> Phase
    ensures { result ≡ phase_after topology d before }
{
    match d.kind {
        3 => copying_from(topology, 0),
        4 => after_copy(topology, d.process, before),
        7..=9 => Phase::Idle,
        _ => before,
    }
}

// The phase: the latest begin, copy of an early process, or end of a round decides.
pub fn phase(topology: Topology, past: Past) -> Phase
    ensures { result ≡ phase_of topology (past_of past) }
{
    past.done()
        .iter()
        .fold(Phase::Idle, |phase, d| phase_after(topology, *d, phase))
}

// The tag of processes without a mark, with one deed more.
fn turned_after(d: Deed, before: bool) -> bool
    ensures { result ≡ turned_after d before }
{
    match d.kind {
        7 => !before,
        8 | 9 => false,
        _ => before,
    }
}

pub fn turned(past: Past) -> bool
    ensures { result ≡ turned (past_of past) }
{
    past.done()
        .iter()
        .fold(false, |tag, d| turned_after(*d, tag))
}
