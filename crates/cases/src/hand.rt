// Topologies and states made by hand: one of each to start from, and functions that change a thing of it.
use crate::starts::ready;
use model::{CHANNELS, Entry, Flags, PLACES, PROCESSES, Phase, State, Step, Topology};
use rules::channel;

// The papers' numbers stand here by hand, so that the code's own constants are tried too: the cells of a store, the
// cell of k, and the last k there is.
pub const STORE_CELLS: usize = 5313;

pub const LINE_CELL: usize = 0;

pub const LAST_LINE: u32 = 4294967295;

// What every cell of a store holds at first.
pub const RUBBISH: u32 = 3735928559;

// The body of every message here.
pub const BODY: u32 = 5;

// So many processes and channels, each channel with both ends at process 0.
pub fn sized(processes: u8, channels: u8) -> Topology {
    let mut topology = rules::fresh::topology();
    topology.processes = processes;
    topology.channels = channels;
    topology
}

// Two processes and channel 0 between these ends.
pub fn one_channel(from: u8, to: u8) -> Topology {
    let mut topology = sized(2, 1);
    topology.from[0] = from;
    topology.to[0] = to;
    topology
}

// Channel 1 as well.
pub fn two_channels(from: u8, to: u8, from_1: u8, to_1: u8) -> Topology {
    let mut topology = one_channel(from, to);
    topology.channels = 2;
    topology.from[1] = from_1;
    topology.to[1] = to_1;
    topology
}

// The plan of document 01's listing: two processes, channel 0 from 0 to 1, channel 1 from 1 to 0.
pub fn pair() -> Topology {
    two_channels(0, 1, 1, 0)
}

// Bit p of the map: process p is late.
pub fn with_late(mut topology: Topology, map: u16) -> Topology {
    topology.late = map;
    topology
}

// The state that initialize leaves for the pair: idle at line 0, words and tags 0, channels and logs empty.
pub fn idle() -> State {
    let mut store = [RUBBISH; STORE_CELLS];
    ready(engine::initialize(pair(), &mut store))
}

// The same for the pair with process 1 late.
pub fn idle_late() -> State {
    with_topology(idle(), with_late(pair(), 2))
}

pub fn with_topology(mut state: State, topology: Topology) -> State {
    state.topology = topology;
    state
}

pub fn at_line(mut state: State, line: u32) -> State {
    state.round.line = line;
    state
}

pub fn in_phase(mut state: State, phase: Phase) -> State {
    state.round.phase = phase;
    state
}

// So many messages on a channel.
pub fn with_messages(mut state: State, channel: usize, count: u8) -> State {
    let c = channel % CHANNELS;
    state.places[c].bodies = [BODY; PLACES];
    state.lengths[c] = count;
    state
}

// An entry alone on a channel.
fn with_entry(mut state: State, channel: usize, entry: Entry) -> State {
    let c = channel % CHANNELS;
    let held = channel::push(channel::empty(), entry);
    state.places[c] = channel::places(held);
    state.lengths[c] = channel::used(held);
    state
}

// A message alone on a channel, with tag 1: its receiver's is 0.
pub fn with_other_tag(state: State, channel: usize) -> State {
    with_entry(
        state,
        channel,
        Entry::Message {
            body: BODY,
            tag: true,
        },
    )
}

// A marker alone on a channel.
pub fn with_marker(state: State, channel: usize) -> State {
    with_entry(state, channel, Entry::Marker)
}

// Every process with its logical checkpoint, and every channel closed.
pub fn with_all_set(mut state: State) -> State {
    state.flags = Flags {
        logical: [true; PROCESSES],
        closed: [true; CHANNELS],
        ..state.flags
    };
    state
}

// A process with its logical checkpoint.
pub fn with_logical(mut state: State, process: usize) -> State {
    state.flags.logical[process % PROCESSES] = true;
    state
}

// A late process with its physical checkpoint in this round.
pub fn with_saved(mut state: State, process: usize) -> State {
    state.flags.saved[process % PROCESSES] = true;
    state
}

pub fn with_closed(mut state: State, channel: usize) -> State {
    state.flags.closed[channel % CHANNELS] = true;
    state
}

// So many entries in the message log of a process.
pub fn with_message_log(mut state: State, process: usize, count: u8) -> State {
    state.counts.messages[process % PROCESSES] = count;
    state
}

// So many entries in the log of a channel.
pub fn with_channel_log(mut state: State, channel: usize, count: u8) -> State {
    state.counts.channels[channel % CHANNELS] = count;
    state
}

pub fn send(channel: u8) -> Step {
    Step::Send {
        channel,
        body: BODY,
    }
}
