// Late processes (document 02, M-105) in states made by hand. Process 1 of the pair is late, and receives on channel 0;
// its tag is 0.
use crate::expected::{
    Told, cut, done, from, gives, logged, refused, tell, then_within, took, untouched,
};
use crate::hand::{
    BODY, RUBBISH, STORE_CELLS, idle, idle_late, in_phase, pair, with_channel_log, with_late,
    with_logical, with_message_log, with_messages, with_other_tag, with_saved, with_topology,
};
use crate::starts::undone;
use model::{Phase, State, Step};
use std::io;

fn receive() -> Step {
    Step::Receive { channel: 0 }
}

// In the logical phase, with the logical checkpoint and without it.
fn marked() -> State {
    with_logical(unmarked(), 1)
}

fn unmarked() -> State {
    in_phase(idle_late(), Phase::Logical)
}

pub fn copies(rt: &impl Print) -> io::Result<()> {
    let copy = Step::PhysicalCheckpoint { process: 1 };
    let early = Step::PhysicalCheckpoint { process: 0 };
    let before = with_logical(in_phase(idle_late(), Phase::Physical(0)), 1);
    let ok = gives(marked(), copy, done(1))
        && gives(with_saved(marked(), 1), copy, refused(12))
        && gives(with_saved(unmarked(), 1), copy, refused(12))
        && gives(unmarked(), copy, refused(12))
        && gives(before, copy, refused(12))
        && gives(marked(), early, refused(12));
    tell(
        rt,
        "12: a late board copies once marked, one time in a round, and not in copying, marked or not.",
        ok,
    )
}

// No run makes a process that has its logical checkpoint outside the logical phase; the papers don't say that it is
// unsound. Here process 0 is late, and in the physical phase the next one is process 1.
pub fn outside_marking(rt: &impl Print) -> io::Result<()> {
    let first_late = with_topology(idle(), with_late(pair(), 1));
    let idle = with_messages(with_logical(first_late, 0), 1, 1);
    let copying = in_phase(idle, Phase::Physical(1));
    let receive = Step::Receive { channel: 1 };
    let ok = gives(idle, receive, took(BODY)) && gives(copying, receive, took(BODY));
    tell(
        rt,
        "Outside marking a late board logs nothing, though it be marked.",
        ok,
    )
}

// Nor one that is saved and has no logical checkpoint.
pub fn saved_unmarked(rt: &impl Print) -> io::Result<()> {
    let saved = with_saved(unmarked(), 1);
    let ok = gives(with_messages(saved, 0, 1), receive(), took(BODY))
        && gives(with_other_tag(saved, 0), receive(), took(BODY))
        && gives(with_messages(unmarked(), 0, 1), receive(), took(BODY))
        && gives(with_other_tag(unmarked(), 0), receive(), logged(BODY, 3));
    tell(
        rt,
        "A late board copied and not marked is sound, and logs nothing, nor by the take that marks it.",
        ok,
    )
}

// So many entries in the logs that a message of another tag needs.
fn with_logs(channel: u8, messages: u8) -> State {
    let counted = with_channel_log(with_message_log(marked(), 1, messages), 0, channel);
    with_other_tag(counted, 0)
}

pub fn anti_messages(rt: &impl Print) -> io::Result<()> {
    let last = with_message_log(with_messages(marked(), 0, 1), 1, 63);
    let full = with_message_log(last, 1, 64);
    let ok = gives(last, receive(), logged(BODY, 3))
        && gives(full, receive(), refused(11))
        && gives(with_saved(full, 1), receive(), took(BODY))
        && gives(with_logs(7, 63), receive(), logged(BODY, 5))
        && gives(with_logs(7, 64), receive(), refused(11))
        && gives(with_logs(8, 63), receive(), refused(11));
    tell(
        rt,
        "The 64th anti-message passes, the 65th is 11; and either log full, where two are needed.",
        ok,
    )
}

// Whether a write was made just if it had to be; then the cell is as at first again.
fn taken_back(store: &mut [u32], cell: usize, value: u32, made: bool) -> bool {
    if store.len() <= cell {
        return false;
    }
    let stood = store[cell];
    store[cell] = RUBBISH;
    if made {
        stood == value
    } else {
        stood == RUBBISH
    }
}

// The last places of two logs, with a power that lasts for so many writes. Those of line 1, whose slot starts at 2,657:
// the log of channel 0 has its count in cell 2,657 + 2,080 and its 8th body 8 cells on; that of process 1 its count in
// 2,657 + 130 + 1, and its 64th body and channel 127 and 128 on.
fn written(budget: u32, expected: Told, again: Told) -> bool {
    let mut store = [RUBBISH; STORE_CELLS];
    let once = then_within(
        budget,
        from(with_logs(7, 63)),
        receive(),
        &mut store,
        expected,
    );
    let body = taken_back(&mut store, 4745, BODY, 1 <= budget);
    let count = taken_back(&mut store, 4737, 8, 2 <= budget);
    let anti_body = taken_back(&mut store, 2915, BODY, 3 <= budget);
    let anti_channel = taken_back(&mut store, 2916, 0, 4 <= budget);
    let anti_count = taken_back(&mut store, 2788, 64, 5 <= budget);
    once.ok
        && body
        && count
        && anti_body
        && anti_channel
        && anti_count
        && untouched(&store)
        && gives(once.state, receive(), again)
}

// Cut, the same receive follows and is done; done, the channel is empty.
pub fn two_logs(rt: &impl Print) -> io::Result<()> {
    let ok = written(0, cut(0), logged(BODY, 5))
        && written(1, cut(1), logged(BODY, 5))
        && written(2, cut(2), logged(BODY, 5))
        && written(3, cut(3), logged(BODY, 5))
        && written(4, cut(4), logged(BODY, 5))
        && written(5, logged(BODY, 5), refused(10));
    tell(
        rt,
        "An anti-message comes after any wire log entry: 5 stores, in order, cut after each.",
        ok,
    )
}

// What M-101 makes of word 0: 4,841 by channel 0 and then 1, 34,601 by the other order, and, by hand, 961 × 5 - 31 + 5
// by channel 0 and then the last number of 32 bits.
pub fn undoing(rt: &impl Print) -> io::Result<()> {
    let ok = undone(4841, 0, 1) == 0
        && undone(34601, 1, 0) == 0
        && undone(4779, 0, 4294967295) == 0;
    tell(rt, "Restart undoes these in reverse order on the copy.", ok)
}
