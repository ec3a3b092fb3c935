// The histories, fed what was done. Topology, past and histories stay arguments of their own, as the second account's
// `on_deed` and `sent_after_mark`, by which the contracts are said, take them.
ghost use Rattle.std.specs.Prelude.{◌≡◌, true, ◌<◌, ◌≤◌, length};
ghost use Rattle.std.proofs.Math.Option.{none};
ghost use Rattle.model.specs.Topology.{sender, receiver, topology_refusal};
ghost use Rattle.model.specs.History.{sent_after_mark};
ghost use Rattle.account.specs.Deeds.{did};
ghost use Rattle.account.specs.Contents.{on_receipt, on_deed};
ghost use Rattle.slow.specs.Kept.{deed_at, past_of};
ghost use Rattle.slow.specs.Seen.{MayFeed, history_seen, on_events, Follows, FedBy, AllFit};

use crate::deeds::Past;
use crate::events::Histories;
use crate::{histories, look, tests};
use model::Topology;

// How many of the first n events of process p's history are sends on a channel, or receives on it.
pub fn number_on(past: Past, histories: Histories, p: u8, sends: bool, channel: u8, n: u16) -> u16
    requires { (p < 16) × (n ≤ 256) }
    ensures { (result ≡ length (on_events (deed_at past) histories p sends channel n)) × (result ≤ n) }
{
    // A name for the entries, since no proof is made where a part of them is lent straight from the histories.
    let entries = &histories.entries;
    entries[p as usize][..n as usize]
        .iter()
        .map(|i| past.deeds[*i as usize])
        .filter(|d| (tests::did(*d, 1) == sends) & (channel == d.channel))
        .count() as u16
}

// Whether the next message to be received on a channel was sent after its sender's mark: the sends before the mark are
// no more than were received.
fn after_mark(topology: Topology, past: Past, histories: Histories, channel: u8) -> bool
    requires { (sender topology channel < 16) × (receiver topology channel < 16) }
    ensures { result ≡ sent_after_mark topology channel (history_seen (deed_at past) histories) }
{
    let p = look::at(&topology.from, channel, 0);
    let q = look::at(&topology.to, channel, 0);
    let Some(mark) = look::at(&histories.marks, p, None) else {
        return false;
    };
    let count = look::at(&histories.counts, q, 0);
    number_on(past, histories, p, true, channel, mark)
        <= number_on(past, histories, q, false, channel, count)
}

// A receive: of a marker, or of a body.
fn receive(topology: Topology, past: Past, histories: Histories, i: u8) -> Histories
    requires { (did 2 (deed_at past i) ≡ true) × MayFeed topology past histories i }
    ensures { Follows past histories (on_receipt topology (deed_at past i)) result }
{
    let d = past.deeds[i as usize];
    let p = look::at(&topology.to, d.channel, 0);
    let after = after_mark(topology, past, histories, d.channel);
    let now = histories::mark_unmarked(histories, p, d.marker | after);
    if d.marker {
        return now;
    }
    histories::add(now, p, i)
}

// A deed: a match on its kind, as `on_deed` has it.
fn deed(topology: Topology, past: Past, histories: Histories, i: u8) -> Histories
    requires { MayFeed topology past histories i }
    ensures { Follows past histories (on_deed topology (deed_at past i)) result }
{
    let d = past.deeds[i as usize];
    match d.kind {
        1 => histories::add(histories, look::at(&topology.from, d.channel, 0), i),
        2 => receive(topology, past, histories, i),
        5 => histories::mark(histories, d.process),
        7 => histories::commit(histories),
        8 => histories::forget(histories),
        9 => histories::recover(histories),
        _ => histories,
    }
}

// The histories after what was done.
pub fn feed(topology: Topology, past: Past) -> Histories
    requires { AllFit topology (past_of past) × (topology_refusal topology ≡ none) }
    ensures { FedBy topology past result }
{
    let mut now = histories::first();
    for i in 0..past.count {
        now = deed(topology, past, now, i as u8);
    }
    now
}
