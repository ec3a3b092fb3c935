// The requests of a session, each served and its line printed.
ghost use Rattle.std.specs.Prelude.{◌≡◌, ◌≤◌, length};
ghost use Rattle.model.specs.declared.Record.TheVariants.{Recover};
ghost use Rattle.model.specs.State.{view};
ghost use Rattle.model.specs.Program.{input_bytes, session_from};
ghost use Rattle.session.specs.RequestRead.{source_of};
ghost use Rattle.session.specs.Serving.{next, served, Serves, Prints};

use crate::request;
use crate::request::{BudgetSource, Request};
use model::{Outcome, Record, Refusal, State, Topology};

// Where a session stands: the number of its next line, where that goes, and the state that its request is served in.
// Store and buffer are lent beside it: a struct that held the two would have each method promise that it keeps both.
// (That its number is at most the input's bytes is no ghost field: after the last request it is one more.)
#[derive(Clone, Copy)]
pub struct Cursor {
    pub number: u32,
    pub at: usize,
    pub state: State,
}

impl Cursor {
    // The next place, after a line that ends at `at`.
    fn next(self, at: usize, state: State) -> Cursor
        requires { self.number ≤ input_bytes }
        ensures { result ≡ next self at state }
    {
        Cursor {
            number: self.number + 1,
            at,
            state,
        }
    }
}

// A recover. Where it is refused, the state is kept.
fn recover(topology: Topology, cursor: Cursor, store: &[u32], out: &mut [u8]) -> Cursor
    requires { cursor.number ≤ input_bytes }
    ensures { Serves cursor (served topology cursor store.now 0 Recover)
        out.old out.new result store.now }
{
    match recovery::recover(topology, store) {
        Ok(state) => {
            let at = report::recover_line(out, cursor.at, cursor.number, state.round.line, 0);
            cursor.next(at, state)
        }
        Err(refusal) => {
            let refused = Outcome::Refused(refusal);
            let at = report::outcome_line(out, cursor.at, cursor.number, refused, 0);
            cursor.next(at, cursor.state)
        }
    }
}

// One request.
fn serve(
    topology: Topology,
    cursor: Cursor,
    request: Request,
    store: &mut [u32],
    out: &mut [u8],
) -> Cursor
    requires { cursor.number ≤ input_bytes }
    ensures { Serves cursor (served topology cursor store.old request.budget request.«record»)
        out.old out.new result store.new }
{
    let Record::Call(step) = request.record else {
        return recover(topology, cursor, store, out);
    };
    let answer = engine::step(cursor.state, step, store, request.budget);
    let at = report::outcome_line(out, cursor.at, cursor.number, answer.outcome, answer.made);
    cursor.next(at, answer.state)
}

// All requests that the bytes hold, in order. A 7 ends the reading after its line, the end of the bytes without one.
// (How many bytes there are is required of the slice, as `plan::taken` leaves it.)
pub fn requests(
    source: BudgetSource,
    topology: Topology,
    state: State,
    bytes: &[u8],
    store: &mut [u32],
    out: &mut [u8],
) -> Cursor
    requires { length bytes.now ≤ input_bytes }
    ensures { Prints (length bytes.now)
        (session_from (source_of source) topology 1 (view state) store.old bytes.now)
        out.old 0 out.new result.at (view result.state) store.new }
{
    let mut cursor = Cursor {
        number: 1,
        at: 0,
        state,
    };
    let mut left = bytes;
    // No `for`: where the next request begins is known once this one is read, and a 7 prints a line before it ends all.
    while !left.is_empty() {
        let Some((request, rest)) = request::read(source, left) else {
            let refused = Outcome::Refused(Refusal::Malformed);
            cursor.at = report::outcome_line(out, cursor.at, cursor.number, refused, 0);
            break;
        };
        cursor = serve(topology, cursor, request, store, out);
        left = rest;
    }
    cursor
}
