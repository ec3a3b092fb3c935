// What M-100's list, both of M-102's ways and M-106's list are refused with, by their plan.
use crate::expected::{tell, untouched};
use crate::hand::{RUBBISH, STORE_CELLS, pair, sized, two_channels, with_late};
use model::{Record, Refusal, Topology};
use std::io;

// The cells of a store of the old form.
const OLD_STORE_CELLS: usize = 3265;

// The longest list that is tried.
const RESTARTS: [Record; 65535] = [Record::Recover; 65535];

// A list of so many restarts.
fn list_gives(topology: Topology, count: u16, number: u8) -> bool {
    refuses(
        reduction::reduce(topology, &RESTARTS[..usize::from(count)]),
        number,
    )
}

fn refuses<T: Copy>(answer: Result<T, Refusal>, number: u8) -> bool {
    answer.is_err_and(|r| rules::refusal::number(r) == number)
}

// From a store that is a cell short (6) to one that stays as it was.
fn ways_give(topology: Topology, number: u8) -> bool {
    let old = [RUBBISH; OLD_STORE_CELLS - 1];
    let new = [RUBBISH; STORE_CELLS - 1];
    let mut target = [RUBBISH; STORE_CELLS];
    let up = migration::upgrade(topology, &old, &mut target);
    let down = migration::downgrade(topology, &new, &mut target);
    refuses(up, number) && refuses(down, number) && untouched(&target)
}

// Bit 2 is the first that the pair doesn't have; channel 1 is doubled (5); a list of 257 calls is too long (18); none
// of these calls is refused (17).
pub fn unknown_late(rt: &impl Print) -> io::Result<()> {
    let unknown = with_late(pair(), 4);
    let doubled = with_late(two_channels(0, 1, 0, 1), 4);
    let ok = list_gives(unknown, 0, 19)
        && list_gives(doubled, 0, 5)
        && list_gives(unknown, 257, 18)
        && list_gives(with_late(pair(), 2), 256, 17)
        && ways_give(unknown, 19)
        && ways_give(doubled, 5)
        && ways_give(pair(), 6);
    tell(
        rt,
        "19 after 5: in M-100's checks, and in M-102's before 6.",
        ok,
    )
}

// Refused with this number, 0 where it isn't refused; and so many calls are answered.
fn slowly_gives(topology: Topology, count: u16, number: u8, answered: u16) -> bool {
    match slow::replay(topology, &RESTARTS[..usize::from(count)]) {
        Ok(replayed) => number == 0 && replayed.count == answered,
        Err(r) => rules::refusal::number(r) == number && answered == 0,
    }
}

// The programs read a plan before its list, so that they can't show which refusal comes first.
pub fn slow_engine(rt: &impl Print) -> io::Result<()> {
    let doubled = with_late(two_channels(0, 1, 0, 1), 4);
    let unknown = with_late(pair(), 4);
    let ok = slowly_gives(sized(17, 0), 257, 18, 0)
        && slowly_gives(doubled, 65535, 18, 0)
        && slowly_gives(sized(17, 0), 256, 1, 0)
        && slowly_gives(doubled, 1, 5, 0)
        && slowly_gives(unknown, 0, 19, 0)
        && slowly_gives(pair(), 0, 0, 0)
        && slowly_gives(with_late(pair(), 2), 256, 0, 256);
    tell(
        rt,
        "18 before 1 to 5 and 19: in M-106's checks; 256 restarts are answered.",
        ok,
    )
}
