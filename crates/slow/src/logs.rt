// Which logs an entry that is received goes into, and what they take.
ghost use Rattle.std.specs.Prelude.{◌≡◌, ◌&&◌, ◌||◌, cond, not, ◌+◌, leb};
ghost use Rattle.model.specs.declared.Entry.TheVariants.{Message};
ghost use Rattle.model.specs.State.{view};
ghost use Rattle.account.specs.Judging.{message_log_needed, logs_of};

use crate::look;
use crate::now::is_logical;
use account::NeededLogs;
use model::{Entry, Phase, State};

// The message log: in the physical phase of an early process that has its copy; in the logical phase, of an early one
// before its mark, where the tags are equal, and of a late one between its mark and its copy, the receive that marks it
// included. (It takes what `message_log_needed` of the second account takes, one by one.)
#[tactic(auto, unfolding(account::specs::Judging::message_log_needed))]
fn message_log(phase: Phase, p: u8, late: bool, logical: bool, saved: bool, differs: bool) -> bool
    ensures { result ≡ message_log_needed phase p late logical saved differs }
{
    match phase {
        Phase::Idle => false,
        Phase::Physical(next) => p < next && !late,
        Phase::Logical if late => (logical || differs) && !saved,
        Phase::Logical => !logical && !differs,
    }
}

// Those that a message with this tag goes into, received by process p.
#[tactic(auto, unfolding(account::specs::Judging::logs_of, account::specs::Judging::channel_log_needed, model::specs::State::view, model::specs::State::view_progress, model::specs::Topology::is_late))]
fn of_message(s: State, p: u8, tag: bool) -> NeededLogs
    ensures { result ≡ logs_of (view s) p (Message 0 tag) }
{
    let logical = look::at(&s.flags.logical, p, false);
    let saved = look::at(&s.flags.saved, p, false);
    let late = look::late(s.topology.late, p);
    let differs = tag != look::at(&s.tags, p, false);
    NeededLogs {
        message: message_log(s.round.phase, p, late, logical, saved, differs),
        channel: is_logical(s.round.phase) && logical && differs,
    }
}

// And any entry: a marker into none.
#[tactic(auto, unfolding(account::specs::Judging::logs_of))]
pub fn of(s: State, p: u8, e: Entry) -> NeededLogs
    ensures { result ≡ logs_of (view s) p e }
{
    match e {
        Entry::Message { tag, .. } => of_message(s, p, tag),
        Entry::Marker => NeededLogs {
            message: false,
            channel: false,
        },
    }
}

// Whether one of the logs is full: 8 places of a channel's, 64 of a process's.
pub fn full(logs: NeededLogs, entries: u8, messages: u8) -> bool
    ensures { result ≡ ((logs.channel && leb 8 entries) || (logs.message && leb 64 messages)) }
{
    logs.channel && 8 <= entries || logs.message && 64 <= messages
}

// (A flag, as `cond` of the definition has it.)
fn cells(needed: bool, n: u32) -> u32
    ensures { result ≡ cond needed n 0 }
{
    if needed { n } else { 0 }
}

// How many writes they take.
pub fn writes(logs: NeededLogs) -> u32
    ensures { result ≡ cond logs.channel 2 0 + cond logs.message 3 0 }
{
    cells(logs.channel, 2) + cells(logs.message, 3)
}
