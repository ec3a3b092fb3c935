// The checks of a topology (document 01's plan), refusals 1 to 5 and 19: first whether it passes, as fast as can be,
// since every step asks that; and only where it doesn't, what refuses it.
ghost use Rattle.std.specs.Prelude.{◌≡◌, ◌+◌, ◌*◌, ◌<◌, ◌≤◌, true};
ghost use Rattle.model.specs.Notation.{all_below};
ghost use Rattle.model.specs.Outcome.{refusal_of};
ghost use Rattle.model.specs.Sound.{topology_sound};
ghost use Rattle.rules.specs.Ends.{joins_two, apart};
ghost use Rattle.model.specs.Topology.{process_limit, channel_limit};
ghost use Rattle.model.specs.Topology.{size_refusal, channel_refusal, channels_refusal, topology_refusal};

use crate::{below, late};
use model::{CHANNELS, PROCESSES, Refusal, Topology};

// How many pairs of processes there are.
const PAIRS: usize = PROCESSES * PROCESSES;

// Refusals 1 and 2: how many processes and channels there are.
#[tactic(auto, using(crate::proofs::Checks::by_sizes), unfolding(model::specs::Outcome::refusal_of))]
pub fn sizes(processes: u8, channels: u8) -> Result<(), Refusal>
    ensures { refusal_of result ≡ size_refusal processes channels }
{
    if !((1 <= processes) & (processes as usize <= PROCESSES)) {
        return Err(Refusal::ProcessCount);
    }
    if CHANNELS < channels as usize {
        return Err(Refusal::ChannelCount);
    }
    Ok(())
}

// Whether every channel joins two different processes of the topology. (That there are no more channels than there may
// be is asked of it, here and below: a topology is checked whatever its numbers are, so that its type can't say it.)
#[tactic(auto, using(crate::proofs::Checks::by_ends))]
fn joined(t: Topology) -> bool
    requires { t.channels ≤ channel_limit }
    ensures { result ≡ all_below t.channels (joins_two t) }
{
    below::all(t.channels, |c| {
        (t.from[c] < t.processes) & (t.to[c] < t.processes) & (t.from[c] != t.to[c])
    })
}

// Where the table of ends has the channels between two processes.
fn place(from: u8, to: u8) -> usize
    requires { (from < process_limit) × (to < process_limit) }
    ensures { result ≡ process_limit * from + to }
{
    PROCESSES * (from as usize) + to as usize
}

// Whether no two channels have the same ends in the same direction, where every channel joins two processes. The table
// says which ends a channel has had so far.
fn distinct(t: Topology) -> bool
    requires { (t.processes ≤ process_limit) × (t.channels ≤ channel_limit)
        × (all_below t.channels (joins_two t) ≡ true) }
    ensures { result ≡ all_below t.channels (apart t) }
{
    let mut seen = [false; PAIRS];
    let mut so = true;
    for c in 0..t.channels as usize {
        let at = place(t.from[c], t.to[c]);
        so = so & !seen[at];
        seen[at] = true;
    }
    so
}

// Whether a topology, any whatever, passes refusals 1 to 5 and 19.
pub fn passes(t: Topology) -> bool
    ensures { result ≡ topology_sound t }
{
    sizes(t.processes, t.channels).is_ok()
        && joined(t)
        && distinct(t) & late::known(t.processes, t.late)
}

// Whether no channel before channel c has its ends in its direction.
#[tactic(auto, using(crate::proofs::Checks::by_pairs))]
fn apart(t: Topology, c: u8) -> bool
    requires { c < channel_limit }
    ensures { result ≡ apart t c }
{
    let (from, to) = (t.from[c as usize], t.to[c as usize]);
    below::all(c, |d| !((t.from[d] == from) & (t.to[d] == to)))
}

// Refusals 3 to 5 of one channel.
#[tactic(auto, using(crate::proofs::Checks::by_channel), unfolding(model::specs::Outcome::refusal_of))]
fn channel(t: Topology, c: u8) -> Result<(), Refusal>
    requires { c < channel_limit }
    ensures { refusal_of result ≡ channel_refusal t c }
{
    let (from, to) = (t.from[c as usize], t.to[c as usize]);
    if !((from < t.processes) & (to < t.processes)) {
        return Err(Refusal::UnknownEnd);
    }
    if from == to {
        return Err(Refusal::SelfChannel);
    }
    if !apart(t, c) {
        return Err(Refusal::DoubledChannel);
    }
    Ok(())
}

// Refusals 3 to 5: the first channel that offends decides.
#[tactic(auto, unfolding(model::specs::Outcome::refusal_of, model::specs::Topology::channels_refusal))]
fn channels(t: Topology) -> Result<(), Refusal>
    requires { t.channels ≤ channel_limit }
    ensures { refusal_of result ≡ channels_refusal t }
{
    for c in 0..t.channels {
        channel(t, c)?;
    }
    Ok(())
}

// Refusals 1 to 5, then 19, of any topology whatever.
pub fn check(t: Topology) -> Result<(), Refusal>
    ensures { refusal_of result ≡ topology_refusal t }
{
    if passes(t) {
        return Ok(());
    }
    sizes(t.processes, t.channels)?;
    channels(t)?;
    if !late::known(t.processes, t.late) {
        return Err(Refusal::UnknownLate);
    }
    Ok(())
}
