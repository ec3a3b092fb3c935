// The cases of refusal 15, "state unsound". Process 2 and channel 2 are the first that the topology doesn't have.
use crate::expected::{done, gives, refused, sent, tell, took};
use crate::hand::{
    BODY, LAST_LINE, at_line, idle, idle_late, in_phase, one_channel, pair, send, sized,
    two_channels, with_channel_log, with_late, with_message_log, with_messages, with_topology,
};
use crate::starts::recovers_by;
use model::{Phase, Step, Topology};
use std::io;

// In a state, and in a recover.
fn bad(topology: Topology, number: u8) -> bool {
    gives(with_topology(idle(), topology), Step::Begin, refused(15))
        && recovers_by(topology, refused(number))
}

pub fn topologies(rt: &impl Print) -> io::Result<()> {
    let ok = bad(sized(0, 0), 1)
        && bad(sized(17, 0), 1)
        && bad(sized(2, 65), 2)
        && bad(one_channel(2, 0), 3)
        && bad(one_channel(0, 2), 3)
        && bad(one_channel(1, 1), 4)
        && bad(two_channels(0, 1, 0, 1), 5)
        && gives(idle(), Step::Begin, done(4));
    tell(
        rt,
        "15 state unsound: its plan meets 1 to 5. A restart by that plan: 1 to 5.",
        ok,
    )
}

// Bit 2 is the first that the pair doesn't have, bit 15 the last there is. Channel 1 is doubled (5).
pub fn late_bit(rt: &impl Print) -> io::Result<()> {
    let all = with_late(sized(16, 0), 65535);
    let ok = bad(with_late(pair(), 4), 19)
        && bad(with_late(pair(), 32768), 19)
        && bad(with_late(two_channels(0, 1, 0, 1), 4), 5)
        && gives(
            with_topology(idle(), with_late(pair(), 3)),
            Step::Begin,
            done(4),
        )
        && gives(with_topology(idle(), all), Step::Begin, done(16));
    tell(
        rt,
        "15 state unsound: a late bit for a board not in the plan. A restart by that plan: 19, after 5.",
        ok,
    )
}

pub fn channel(rt: &impl Print) -> io::Result<()> {
    let receive = Step::Receive { channel: 1 };
    let eight = with_messages(idle(), 1, 8);
    let ok = gives(with_messages(idle(), 1, 9), receive, refused(15))
        && gives(eight, receive, took(BODY))
        && gives(with_messages(eight, 2, 9), receive, took(BODY));
    tell(
        rt,
        "15 state unsound: a planned wire has over 8 entries. 8 pass, and 9 past the plan.",
        ok,
    )
}

pub fn message_log(rt: &impl Print) -> io::Result<()> {
    let full = with_message_log(idle(), 1, 64);
    let ok = gives(with_message_log(idle(), 1, 65), send(0), refused(15))
        && gives(full, send(0), sent(7))
        && gives(with_message_log(full, 2, 65), send(0), sent(7));
    tell(
        rt,
        "15 state unsound: the log of a planned board is over its places. 64 pass, and 65 past the plan.",
        ok,
    )
}

pub fn channel_log(rt: &impl Print) -> io::Result<()> {
    let full = with_channel_log(idle(), 1, 8);
    let ok = gives(with_channel_log(idle(), 1, 9), send(0), refused(15))
        && gives(full, send(0), sent(7))
        && gives(with_channel_log(full, 2, 9), send(0), sent(7));
    tell(
        rt,
        "15 state unsound: the log of a planned wire is over its places. 8 pass, and 9 past the plan.",
        ok,
    )
}

pub fn next_process(rt: &impl Print) -> io::Result<()> {
    let none = in_phase(idle(), Phase::Physical(2));
    let last = in_phase(idle(), Phase::Physical(1));
    let ok = gives(none, Step::PhysicalCheckpoint { process: 2 }, refused(15))
        && gives(last, Step::PhysicalCheckpoint { process: 1 }, done(1));
    tell(
        rt,
        "15 state unsound: the next board to copy isn't in the plan. The last board passes.",
        ok,
    )
}

pub fn late_next(rt: &impl Print) -> io::Result<()> {
    let late = in_phase(idle_late(), Phase::Physical(1));
    let early = in_phase(idle_late(), Phase::Physical(0));
    let ok = gives(late, Step::PhysicalCheckpoint { process: 1 }, refused(15))
        && gives(late, Step::Abort, refused(15))
        && gives(early, Step::PhysicalCheckpoint { process: 0 }, done(1));
    tell(
        rt,
        "15 state unsound: a late board as the next to copy. An early one passes.",
        ok,
    )
}

pub fn round(rt: &impl Print) -> io::Result<()> {
    let physical = Step::PhysicalCheckpoint { process: 0 };
    let logical = Step::LogicalCheckpoint { process: 0 };
    let in_physical = in_phase(idle(), Phase::Physical(0));
    let in_logical = in_phase(idle(), Phase::Logical);
    let ok = gives(at_line(in_physical, LAST_LINE), physical, refused(15))
        && gives(at_line(in_logical, LAST_LINE), logical, refused(15))
        && gives(at_line(idle(), LAST_LINE), send(0), sent(7))
        && gives(at_line(in_physical, LAST_LINE - 1), physical, done(1))
        && gives(at_line(in_logical, LAST_LINE - 1), logical, done(0));
    tell(
        rt,
        "15 state unsound: the round isn't idle at k = 4,294,967,295. Idle passes, and k one less.",
        ok,
    )
}

// Process 9 and channel 9 are not in the topology (8), a begin doesn't come in the logical phase (12), and what follows
// a begin not in idle (12).
pub fn before_others(rt: &impl Print) -> io::Result<()> {
    let nine = with_messages(idle(), 1, 9);
    let ok = gives(nine, send(9), refused(15))
        && gives(nine, Step::Receive { channel: 9 }, refused(15))
        && gives(in_phase(nine, Phase::Logical), Step::Begin, refused(15))
        && gives(nine, Step::PhysicalCheckpoint { process: 9 }, refused(15))
        && gives(nine, Step::LogicalCheckpoint { process: 9 }, refused(15))
        && gives(nine, Step::SendMarker { channel: 9 }, refused(15))
        && gives(nine, Step::Commit, refused(15))
        && gives(nine, Step::Abort, refused(15));
    tell(
        rt,
        "Order for steps: 15 before 8 and 12, in each of the eight.",
        ok,
    )
}
