// What the papers say is answered, whether a step is answered so, and what is told of a case.
use crate::hand::{RUBBISH, STORE_CELLS};
use model::{FULL_BUDGET, Outcome, State, Step};
use std::io;

// What an answer says, as document 01's listing has it: a word, and its number if it has one.
#[derive(Clone, Copy, Debug, PartialEq, Eq)]
enum Said {
    Done,
    Sent(u8),
    Took(u32),
    Note,
    Line(u32),
    Refused(u8),
    Cut,
}

// A line of that listing: what is said, and the writes made.
#[derive(Clone, Copy, Debug, PartialEq, Eq)]
pub struct Told {
    said: Said,
    made: u32,
}

pub fn done(made: u32) -> Told {
    Told {
        said: Said::Done,
        made,
    }
}

pub fn sent(room: u8) -> Told {
    Told {
        said: Said::Sent(room),
        made: 0,
    }
}

// Logged, so that there are writes.
pub fn logged(body: u32, made: u32) -> Told {
    Told {
        said: Said::Took(body),
        made,
    }
}

pub fn took(body: u32) -> Told {
    logged(body, 0)
}

pub fn cut(made: u32) -> Told {
    Told {
        said: Said::Cut,
        made,
    }
}

pub fn note() -> Told {
    Told {
        said: Said::Note,
        made: 0,
    }
}

pub fn line(k: u32) -> Told {
    Told {
        said: Said::Line(k),
        made: 0,
    }
}

pub fn refused(number: u8) -> Told {
    Told {
        said: Said::Refused(number),
        made: 0,
    }
}

// What a step tells, case by case.
fn as_told(outcome: Outcome, made: u32) -> Told {
    let said = match outcome {
        Outcome::Done => Said::Done,
        Outcome::Sent(room) => Said::Sent(room),
        Outcome::Received(body) => Said::Took(body),
        Outcome::ReceivedMarker => Said::Note,
        Outcome::Refused(r) => Said::Refused(rules::refusal::number(r)),
        Outcome::PowerLost => Said::Cut,
    };
    Told { said, made }
}

// A trial of steps: the state that it has come to, and whether every answer so far was the expected one. (No Result: a
// trial goes on from its state whatever was answered.)
#[derive(Clone, Copy)]
pub struct Trial {
    pub state: State,
    pub ok: bool,
}

pub fn from(state: State) -> Trial {
    Trial { state, ok: true }
}

// After one more step.
pub fn then(trial: Trial, step: Step, store: &mut [u32], expected: Told) -> Trial {
    then_within(FULL_BUDGET, trial, step, store, expected)
}

// The same with a power that lasts for so many writes.
pub fn then_within(
    budget: u32,
    trial: Trial,
    step: Step,
    store: &mut [u32],
    expected: Told,
) -> Trial {
    let answer = engine::step(trial.state, step, store, budget);
    Trial {
        state: answer.state,
        ok: trial.ok && as_told(answer.outcome, answer.made) == expected,
    }
}

// Whether every cell is as it was at first.
pub fn untouched(store: &[u32]) -> bool {
    store.iter().all(|&cell| cell == RUBBISH)
}

// Whether a step on a store of rubbish is answered so. Where it is refused, it is refused again in the state answered,
// and the store is as it was.
fn gives_on(store: &mut [u32], state: State, step: Step, expected: Told) -> bool {
    let once = then(from(state), step, store, expected);
    let Said::Refused(_) = expected.said else {
        return once.ok;
    };
    let twice = then(once, step, store, expected);
    twice.ok && untouched(store)
}

// The same on a store that is long enough.
pub fn gives(state: State, step: Step, expected: Told) -> bool {
    let mut store = [RUBBISH; STORE_CELLS];
    gives_on(&mut store, state, step, expected)
}

// And on one that is a cell short.
pub fn gives_short(state: State, step: Step, expected: Told) -> bool {
    let mut store = [RUBBISH; STORE_CELLS - 1];
    gives_on(&mut store, state, step, expected)
}

// Prints a case's line; the error is a write's that failed.
pub fn tell(rt: &impl Print, case: &str, ok: bool) -> io::Result<()> {
    let word = if ok { "ok" } else { "FAILED" };
    println!(rt; "{word} {case}")
}
