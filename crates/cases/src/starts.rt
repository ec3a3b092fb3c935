// Initialize and recover on stores made by hand, and whether they answer as expected.
use crate::expected::{Told, line, refused, untouched};
use crate::hand::{BODY, LINE_CELL, RUBBISH, STORE_CELLS, pair, sized, with_late};
use model::{Refusal, State, Topology};

// Cells of the slot for line 0, which starts at 1. In it the record of process p starts at 130 × p: its physical
// checkpoint, its log's count, a body and a channel for each entry. That of channel c starts at 2,080 + 9 × c: its
// log's count, a body for each entry.
const CHECKPOINT_OF_PROCESS_0: usize = 1;

const COUNT_OF_PROCESS_0: usize = 1 + 1;

const FIRST_BODY: usize = 1 + 2;

const FIRST_CHANNEL: usize = 1 + 3;

const SECOND_BODY: usize = 1 + 4;

const SECOND_CHANNEL: usize = 1 + 5;

pub const COUNT_OF_PROCESS_1: usize = 1 + 130 + 1;

pub const COUNT_OF_PROCESS_2: usize = 1 + 2 * 130 + 1;

pub const COUNT_OF_CHANNEL_1: usize = 1 + 2080 + 9;

// "`line` and its number for a restart; `refused` and number"
pub fn answered(started: Result<State, Refusal>, expected: Told) -> bool {
    let told = match started {
        Ok(state) => line(state.round.line),
        Err(r) => refused(rules::refusal::number(r)),
    };
    told == expected
}

// The state that is answered: one of no process where there is none, so that the case fails.
pub fn ready(started: Result<State, Refusal>) -> State {
    started.unwrap_or(recovery::initial(rules::fresh::topology()))
}

// A recover by a topology after an initialize for the pair and a change of one cell.
fn recovers(topology: Topology, cell: usize, value: u32, expected: Told) -> bool {
    let mut store = [RUBBISH; STORE_CELLS];
    let _ = engine::initialize(pair(), &mut store);
    store[cell % STORE_CELLS] = value;
    answered(recovery::recover(topology, &store), expected)
}

// By the pair, with a cell changed.
pub fn recovers_with(cell: usize, value: u32, expected: Told) -> bool {
    recovers(pair(), cell, value, expected)
}

// By another topology, with no cell changed: initialize has put 0 there.
pub fn recovers_by(topology: Topology, expected: Told) -> bool {
    recovers(topology, LINE_CELL, 0, expected)
}

// An initialize and a recover on a store that is a cell short; initialize leaves it as it was.
pub fn starts_short(topology: Topology, expected: Told) -> bool {
    let mut store = [RUBBISH; STORE_CELLS - 1];
    let first = engine::initialize(topology, &mut store);
    let kept = untouched(&store);
    let again = recovery::recover(topology, &store);
    answered(first, expected) && kept && answered(again, expected)
}

// The word of process 0 after a recover from its physical checkpoint, 0, and an entry of its message log: the body,
// received on this channel.
pub fn replayed(channel: u32) -> u32 {
    let alone = sized(1, 0);
    let mut store = [RUBBISH; STORE_CELLS];
    let _ = engine::initialize(alone, &mut store);
    store[COUNT_OF_PROCESS_0] = 1;
    store[FIRST_BODY] = BODY;
    store[FIRST_CHANNEL] = channel;
    ready(recovery::recover(alone, &store)).words[0]
}

// The same where process 0 is late, from this physical checkpoint and two anti-messages, received on these channels.
pub fn undone(checkpoint: u32, first: u32, second: u32) -> u32 {
    let alone = with_late(sized(1, 0), 1);
    let mut store = [RUBBISH; STORE_CELLS];
    let _ = engine::initialize(alone, &mut store);
    store[CHECKPOINT_OF_PROCESS_0] = checkpoint;
    store[COUNT_OF_PROCESS_0] = 2;
    store[FIRST_BODY] = BODY;
    store[FIRST_CHANNEL] = first;
    store[SECOND_BODY] = BODY;
    store[SECOND_CHANNEL] = second;
    ready(recovery::recover(alone, &store)).words[0]
}
