// What the past tells of a channel, a late process and the logs, beside the histories.
ghost use Rattle.std.specs.Prelude.{◌≡◌, ◌≤◌, length, reverse};
ghost use Rattle.account.specs.Round.{this_round};
ghost use Rattle.account.specs.Progress.{closed_in, marker_sent, saved_in};
ghost use Rattle.account.specs.Logs.{since_clear, messages_logged, channel_logged};
ghost use Rattle.account.specs.Contents.{behind};
ghost use Rattle.slow.specs.Kept.{past_of};

use crate::deeds::Past;
use crate::{look, tests};
use account::Deed;
use model::Topology;

// What was done in this round.
#[tactic(auto, unfolding(account::specs::Round::this_round))]
fn this_round(past: &Past) -> &[Deed]
    ensures { reverse result.now ≡ this_round (past_of past.now) }
{
    past.since(tests::starts_or_ends)
}

// Whether the channel is closed: a marker was received on it in this round.
pub fn closed(past: &Past, channel: u8) -> bool
    ensures { result ≡ closed_in channel (past_of past.now) }
{
    this_round(past)
        .iter()
        .any(|d| tests::receives_marker(*d, channel))
}

// Whether its marker was sent in this round.
pub fn marker_sent(past: &Past, channel: u8) -> bool
    ensures { result ≡ marker_sent channel (past_of past.now) }
{
    this_round(past)
        .iter()
        .any(|d| tests::on_channel(*d, 6, channel))
}

// Whether a late process has its physical checkpoint in this round.
pub fn saved(topology: Topology, past: &Past, process: u8) -> bool
    ensures { result ≡ saved_in topology process (past_of past.now) }
{
    let copied = this_round(past).iter().any(|d| tests::copies(*d, process));
    look::late(topology.late, process) & copied
}

// How many messages were sent on a channel since its marker.
pub fn behind(past: &Past, channel: u8) -> u16
    ensures { result ≡ behind channel (past_of past.now) }
{
    past.since(|d| tests::on_channel(d, 6, channel))
        .iter()
        .filter(|d| tests::on_channel(**d, 1, channel))
        .count() as u16
}

// What was done since the logs were empty.
#[tactic(auto, unfolding(account::specs::Logs::since_clear))]
fn since_clear(past: &Past) -> &[Deed]
    ensures since { reverse result.now ≡ since_clear (past_of past.now) }
    ensures few { length result.now ≤ 256 }
{
    past.since(tests::clears)
}

// How many entries a channel's log has: receives on it that made the writes of such a log, 2, or of both.
pub fn logged(past: &Past, channel: u8) -> u16
    ensures { result ≡ channel_logged channel (past_of past.now) }
{
    since_clear(past)
        .iter()
        .filter(|d| tests::logs(**d, 2) && d.channel == channel)
        .count() as u16
}

// And a process's message log: 3, or those of both.
pub fn messages(topology: Topology, past: &Past, process: u8) -> u16
    ensures { result ≡ messages_logged topology process (past_of past.now) }
{
    since_clear(past)
        .iter()
        .filter(|d| tests::logs(**d, 3) && look::at(&topology.to, d.channel, 0) == process)
        .count() as u16
}
