// The steps by their kinds, as document 01 numbers them.
use crate::expected::{Told, done, gives, refused, sent, tell, took};
use crate::hand::{BODY, idle, in_phase, with_all_set, with_messages};
use model::{Phase, State};
use std::io;

// With process 0, channel 1 and the body, whichever of them the kind uses: no record can have all three. (A kind is a
// number here, since numbers that are none are tried.)
fn kind_gives(state: State, kind: u8, expected: Told) -> bool {
    match record::step_of(kind, 0, 1, BODY) {
        Ok(step) => gives(state, step, expected),
        Err(r) => refused(rules::refusal::number(r)) == expected,
    }
}

pub fn steps(rt: &impl Print) -> io::Result<()> {
    let physical = in_phase(idle(), Phase::Physical(0));
    let logical = in_phase(idle(), Phase::Logical);
    let ready = with_all_set(logical);
    let ok = kind_gives(idle(), 1, sent(7))
        && kind_gives(with_messages(idle(), 1, 1), 2, took(BODY))
        && kind_gives(idle(), 3, done(4))
        && kind_gives(physical, 4, done(1))
        && kind_gives(logical, 5, done(0))
        && kind_gives(ready, 6, done(0))
        && kind_gives(ready, 7, done(1))
        && kind_gives(logical, 8, done(0))
        && kind_gives(idle(), 0, refused(7))
        && kind_gives(idle(), 9, refused(7))
        && kind_gives(idle(), 255, refused(7));
    tell(
        rt,
        "A step is a kind with only the fields it uses: 1 to 8. 0, 9 and 255 are none: 7.",
        ok,
    )
}
