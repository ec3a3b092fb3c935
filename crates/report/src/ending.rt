// The lines after the last request: each process with its word, and each channel with its messages.
ghost use Rattle.std.specs.Prelude.{◌*◌, ◌<◌, get_or, length};
ghost use Rattle.model.specs.Channel.{bodies};
ghost use Rattle.model.specs.State.{entries_in, view};
ghost use Rattle.report.specs.Appends.{Appends};
ghost use Rattle.report.specs.Text.{channel_text};
ghost use Rattle.report.specs.TextBytes.{process_bytes, channel_bytes};
ghost use Rattle.report.specs.Ending.{processes_text, channels_text, most_entries, ending_text, ending_bytes};

use crate::{channel_line, each, process_line};
use model::{CHANNELS, PROCESSES, Places, State, Topology};
use rules::channel;

// A channel's line: that of an empty one past the array, as a state is seen.
fn nth_channel(
    places: &[Places; CHANNELS],
    lengths: &[u8; CHANNELS],
    out: &mut [u8],
    at: usize,
    c: usize,
) -> usize
    requires { c < 256 }
    ensures { Appends (channel_bytes (length (entries_in places.now lengths.now c))) out.old at
        (channel_text c (bodies (entries_in places.now lengths.now c))) out.new result }
{
    let here = places.get(c).copied().unwrap_or(channel::blank());
    let length = lengths.get(c).copied().unwrap_or(0);
    channel_line(out, at, c as u32, channel::held(here, length))
}

// The first n processes, each with its word: 0 past the array, as a state is seen.
fn processes(n: u8, words: &[u32; PROCESSES], out: &mut [u8], at: usize) -> usize
    ensures { Appends (n * process_bytes) out.old at
        (processes_text n (λ p. get_or words.now p 0)) out.new result }
{
    each(out, at, n as usize, |out, at, p| {
        process_line(out, at, p as u32, words.get(p).copied().unwrap_or(0))
    })
}

// The first n channels.
fn channels(
    n: u8,
    places: &[Places; CHANNELS],
    lengths: &[u8; CHANNELS],
    out: &mut [u8],
    at: usize,
) -> usize
    ensures { Appends (n * channel_bytes (most_entries n (entries_in places.now lengths.now)))
        out.old at (channels_text n (entries_in places.now lengths.now)) out.new result }
{
    each(out, at, n as usize, |out, at, c| {
        nth_channel(places, lengths, out, at, c)
    })
}

// Those of a topology, as a state has them.
pub fn print(topology: Topology, state: State, out: &mut [u8], at: usize) -> usize
    ensures { Appends (ending_bytes topology (view state)) out.old at
        (ending_text topology (view state)) out.new result }
{
    let next = processes(topology.processes, &state.words, out, at);
    channels(topology.channels, &state.places, &state.lengths, out, next)
}
