// Work 2: recovers of one store, a cell of which changes each time; of early processes or late ones, as the plan says.
use crate::input::cells;
use crate::sum::{body_at, fold, whole_sum};
use model::{Refusal, State, Topology};
use rules::channel;
use rules::layout::STORE_CELLS;

// The state that is answered: one of no process where the store is refused.
pub fn ready(started: Result<State, Refusal>) -> State {
    started.unwrap_or(recovery::initial(rules::fresh::topology()))
}

pub fn run(topology: Topology, times: u32, bytes: &[u8]) -> u32 {
    let mut store = [0; STORE_CELLS];
    cells(&mut store, bytes);
    let mut state = ready(recovery::recover(topology, &store));
    let mut sum = 0;
    for i in 0..times {
        store[3] = i;
        state = ready(recovery::recover(topology, &store));
        let last = channel::held(state.places[63], state.lengths[63]);
        sum = fold(fold(sum, state.words[0]), body_at(last, 7));
    }
    whole_sum(sum, state, &store)
}
