// Cases that no input of the programs can make: a plan, a state or a store is made by hand, and the engine, a
// reduction, a carrying or the slow engine is called on it.
// A line for each: "ok" or "FAILED", and the papers' sentence, or ours where they have none. The other cases of
// document 01 are in tests/scripts/. Its words here (docs/VOCABULARY.md): copying and marking are the physical and the
// logical phase, to copy and to mark a board a process's physical and logical checkpoint, to take a message to receive
// it.
// Unless a case says otherwise it starts from the state that initialize leaves for the plan of document 01's listing:
// two processes, channel 0 from 0 to 1 and channel 1 back. `send(1)`, `sent(2)`: on channel 1, and 2 places are left.
#![tactic(auto)]

mod expected;
mod hand;
mod kinds;
mod late;
mod products;
mod starts;
mod unsound;

use crate::expected::{
    Told, done, from, gives, gives_short, line, note, refused, sent, tell, then, took,
};
use crate::hand::{
    BODY, LAST_LINE, LINE_CELL, RUBBISH, STORE_CELLS, idle, in_phase, one_channel, send, sized,
    two_channels, with_closed, with_late, with_marker, with_messages, with_other_tag,
    with_topology,
};
use crate::starts::{
    COUNT_OF_CHANNEL_1, COUNT_OF_PROCESS_1, COUNT_OF_PROCESS_2, answered, ready, recovers_with,
    replayed, starts_short,
};
use model::{Phase, State, Step};
use std::io;

// One process: a recover at the last line but one, a whole round, and a begin after it, also after another recover.
fn last_line(rt: &impl Print) -> io::Result<()> {
    let physical = Step::PhysicalCheckpoint { process: 0 };
    let logical = Step::LogicalCheckpoint { process: 0 };
    let alone = sized(1, 0);
    let mut store = [0; STORE_CELLS];
    store[LINE_CELL] = LAST_LINE - 1;
    let old = recovery::recover(alone, &store);
    let in_physical = then(from(ready(old)), Step::Begin, &mut store, done(1));
    let in_logical = then(in_physical, physical, &mut store, done(1));
    let marked = then(in_logical, logical, &mut store, done(0));
    let committed = then(marked, Step::Commit, &mut store, done(1));
    let new = recovery::recover(alone, &store);
    let ok = answered(old, line(LAST_LINE - 1))
        && in_physical.state.round.line == LAST_LINE - 1
        && committed.ok
        && store[LINE_CELL] == LAST_LINE
        && answered(new, line(LAST_LINE))
        && gives(committed.state, Step::Begin, refused(13))
        && gives(ready(new), Step::Begin, refused(13));
    tell(rt, "k = 4,294,967,294 begins; one more is 13.", ok)
}

// Channel 9 is not in the topology (8), and a physical checkpoint doesn't come in idle (12).
fn short_store(rt: &impl Print) -> io::Result<()> {
    let good = one_channel(0, 1);
    let sound = with_topology(idle(), good);
    let nine = with_messages(idle(), 1, 9);
    let ok = starts_short(good, refused(6))
        && starts_short(sized(17, 0), refused(1))
        && starts_short(sized(2, 65), refused(2))
        && starts_short(one_channel(0, 2), refused(3))
        && starts_short(one_channel(1, 1), refused(4))
        && starts_short(two_channels(0, 1, 0, 1), refused(5))
        && starts_short(with_late(good, 4), refused(19))
        && starts_short(with_late(two_channels(0, 1, 0, 1), 4), refused(5))
        && gives_short(sound, send(0), refused(6))
        && gives_short(sound, Step::Receive { channel: 9 }, refused(6))
        && gives_short(sound, Step::Begin, refused(6))
        && gives_short(sound, Step::PhysicalCheckpoint { process: 0 }, refused(6))
        && gives_short(nine, Step::Begin, refused(15))
        && gives(sound, Step::Begin, done(3));
    tell(
        rt,
        "6 store under 5,313 cells: after 1 to 5, 19 and 15, before 8 and 12.",
        ok,
    )
}

fn marker_on_closed(rt: &impl Print) -> io::Result<()> {
    let receive = Step::Receive { channel: 0 };
    let open = with_marker(in_phase(idle(), Phase::Logical), 0);
    let closed = with_closed(open, 0);
    let ok = gives(open, receive, note()) && gives(closed, receive, refused(14));
    tell(
        rt,
        "14 in marking, a note taken on a closed wire. On an open one: note.",
        ok,
    )
}

// Channel 0 is empty then and open, and its receiver has no logical checkpoint: its tag isn't turned over.
fn merely_removed(state: State) -> bool {
    gives(state, Step::Receive { channel: 0 }, refused(10))
        && !state.tags[1]
        && !state.flags.logical[1]
        && !state.flags.closed[0]
}

// In this phase a marker is taken, and a message of another tag than its receiver's; and the round goes on.
fn outside_logical(phase: Phase, next: Step, expected: Told) -> bool {
    let receive = Step::Receive { channel: 0 };
    let marked = in_phase(with_marker(idle(), 0), phase);
    let tagged = in_phase(with_other_tag(idle(), 0), phase);
    let mut store = [RUBBISH; STORE_CELLS];
    let one = then(from(marked), receive, &mut store, note());
    let two = then(from(tagged), receive, &mut store, took(BODY));
    one.ok
        && two.ok
        && merely_removed(one.state)
        && merely_removed(two.state)
        && gives(one.state, next, expected)
}

fn take_outside_logical(rt: &impl Print) -> io::Result<()> {
    let physical = Step::PhysicalCheckpoint { process: 0 };
    let ok = outside_logical(Phase::Idle, Step::Begin, done(4))
        && outside_logical(Phase::Physical(0), physical, done(1));
    tell(
        rt,
        "Take, outside marking: tags aren't looked at and a note is merely removed.",
        ok,
    )
}

fn room(rt: &impl Print) -> io::Result<()> {
    let five = with_messages(idle(), 1, 5);
    let ok = gives(idle(), send(1), sent(7))
        && gives(five, send(1), sent(2))
        && gives(five, send(0), sent(7))
        && gives(with_messages(idle(), 1, 7), send(1), sent(0))
        && gives(with_messages(idle(), 1, 8), send(1), refused(9));
    tell(
        rt,
        "A send answers how many entries the wire can still hold afterwards.",
        ok,
    )
}

fn room_beside_marker(rt: &impl Print) -> io::Result<()> {
    let marked = with_marker(in_phase(idle(), Phase::Logical), 0);
    let ok = gives(marked, send(0), sent(6)) && gives(marked, send(1), sent(7));
    tell(
        rt,
        "An entry is a message or a note: a send beside a note leaves 6.",
        ok,
    )
}

fn stored_counts(rt: &impl Print) -> io::Result<()> {
    let ok = recovers_with(COUNT_OF_PROCESS_1, 64, line(0))
        && recovers_with(COUNT_OF_PROCESS_1, 65, refused(16))
        && recovers_with(COUNT_OF_CHANNEL_1, 8, line(0))
        && recovers_with(COUNT_OF_CHANNEL_1, 9, refused(16));
    tell(
        rt,
        "16 (restart) a planned count in half k mod 2 is over 64 or 8. 64 and 8 pass.",
        ok,
    )
}

// Process 2 is not in the topology. The slot for line 1 is rubbish: it passes at line 0, and is 16 at line 1.
fn other_counts(rt: &impl Print) -> io::Result<()> {
    let ok = recovers_with(COUNT_OF_PROCESS_2, RUBBISH, line(0))
        && recovers_with(LINE_CELL, 1, refused(16));
    tell(
        rt,
        "16 is for no count past the plan, and for none in the other half.",
        ok,
    )
}

// M-101 makes 31 × channel + body of word 0, modulo 2^32; with body 5 that is, by hand, for channels 0, 1, 255, 256 and
// the last number of 32 bits, what stands here. Refusal 16 looks at counts alone, not at the channel.
fn logged_channels(rt: &impl Print) -> io::Result<()> {
    let ok = replayed(0) == 5
        && replayed(1) == 36
        && replayed(255) == 7910
        && replayed(256) == 7941
        && replayed(4294967295) == 4294967270;
    tell(
        rt,
        "A restart enters a logged wire of any 32 bits as it stands.",
        ok,
    )
}

fn main(rt: HostRuntime) -> io::Result<()> {
    last_line(&rt)?;
    unsound::topologies(&rt)?;
    unsound::late_bit(&rt)?;
    short_store(&rt)?;
    marker_on_closed(&rt)?;
    take_outside_logical(&rt)?;
    room(&rt)?;
    room_beside_marker(&rt)?;
    unsound::channel(&rt)?;
    unsound::message_log(&rt)?;
    unsound::channel_log(&rt)?;
    unsound::next_process(&rt)?;
    unsound::late_next(&rt)?;
    unsound::round(&rt)?;
    unsound::before_others(&rt)?;
    stored_counts(&rt)?;
    other_counts(&rt)?;
    logged_channels(&rt)?;
    kinds::steps(&rt)?;
    products::unknown_late(&rt)?;
    products::slow_engine(&rt)?;
    late::copies(&rt)?;
    late::outside_marking(&rt)?;
    late::saved_unmarked(&rt)?;
    late::anti_messages(&rt)?;
    late::two_logs(&rt)?;
    late::undoing(&rt)
}
