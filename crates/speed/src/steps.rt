// Work 1: a script's steps, each with full power.
use crate::input::{SCRIPTED, step};
use crate::recovers::ready;
use crate::sum::{fold, outcome_code, whole_sum};
use model::{Answer, FULL_BUDGET, Outcome, Topology};
use rules::layout::STORE_CELLS;

#[derive(Clone, Copy)]
struct Tally {
    sum: u32,
    state: model::State,
}

fn turn(before: Tally, number: u32, script: &[u8], store: &mut [u32]) -> Tally {
    let mut answer = Answer {
        outcome: Outcome::Done,
        made: 0,
        state: before.state,
    };
    let mut sum = before.sum;
    for scripted in script.chunks_exact(SCRIPTED) {
        let Ok(step) = step(scripted, number) else {
            break;
        };
        answer = engine::step(answer.state, step, store, FULL_BUDGET);
        sum = fold(fold(sum, outcome_code(answer.outcome)), answer.made);
    }
    Tally {
        sum,
        state: answer.state,
    }
}

pub fn run(topology: Topology, times: u32, script: &[u8]) -> u32 {
    let mut store = [0; STORE_CELLS];
    let state = ready(engine::initialize(topology, &mut store));
    let mut now = Tally { sum: 0, state };
    for i in 0..times {
        now = turn(now, i, script, &mut store);
    }
    whole_sum(now.sum, now.state, &store)
}
