// The types that every crate here shares. Their meaning is in specs/: State.antt sees a State as an abstract
// global state, and everything else is said of that.
#![tactic(auto)]

// Document 01: "a plan has 1 to 16" boards, "0 to 64" wires, and a wire "holds at most 8 entries": so long are the
// arrays, and a channel's entries have a place each.
pub const PROCESSES: usize = 16;

pub const CHANNELS: usize = 64;

pub const PLACES: usize = 8;

// Document 01's plan: how many processes (boards) and channels (wires) there are, and the two ends of each channel.
// Document 02, M-105: bit p of `late` stands where process p is late, that is, has its physical checkpoint after the
// logical one.
#[derive(Clone, Copy)]
pub struct Topology {
    pub processes: u8,
    pub channels: u8,
    pub from: [u8; CHANNELS],
    pub to: [u8; CHANNELS],
    pub late: u16,
}

// Document 01's round: idle, copying (the physical phase, with the next process to checkpoint), marking (the
// logical phase).
#[derive(Clone, Copy, Debug, PartialEq, Eq)]
pub enum Phase {
    Idle,
    Physical(u8),
    Logical,
}

// The last recovery line finished (document 01's k), and the phase of the round after it.
#[derive(Clone, Copy)]
pub struct Round {
    pub line: u32,
    pub phase: Phase,
}

// What a channel holds: a message with the tag its sender had, or a marker (document 01's note). (No Option: a marker
// is an entry as a message is, and the definitions' lists of entries name both.)
#[derive(Clone, Copy)]
pub enum Entry {
    Message { body: u32, tag: bool },
    Marker,
}

// A channel's 8 places, first in first out from place 0. Kind 0 is a message tagged 0, kind 1 a message tagged 1,
// and any other kind a marker. (Arrays side by side, here and in the types below: memory is fixed, with no heap, and
// `view` reads them so.)
#[derive(Clone, Copy)]
pub struct Places {
    pub bodies: [u32; PLACES],
    pub kinds: [u8; PLACES],
}

// A channel by value: its places, and how many are used. Places from count on are unused. (A state has its channels'
// lengths in an array of their own, since every step looks through them. Arrays side by side and a count: memory is
// fixed here, with no heap, and `entries` reads them so.)
#[derive(Clone, Copy)]
pub struct Channel {
    pub bodies: [u32; PLACES],
    pub kinds: [u8; PLACES],
    pub count: u8,
}

// What a receive brings: the channel (document 02's wire) that a message came on, and its body. A cell of the store can
// hold any number, so a receipt read from there may name a channel that is none.
#[derive(Clone, Copy)]
pub struct Receipt {
    pub channel: u32,
    pub body: u32,
}

// The receiver of an entry as it finds it: its number, whether it is late, whether it has its logical checkpoint and,
// being late, its physical one in this round, and its tag.
#[derive(Clone, Copy)]
pub struct Receiver {
    pub process: u8,
    pub late: bool,
    pub logical: bool,
    pub saved: bool,
    pub tag: bool,
}

// What the round under way has done: the processes that have their logical checkpoint (marked boards), the late ones
// that have their physical checkpoint too (late boards copied), the channels that are closed, and those on which the
// marker was sent (note put).
#[derive(Clone, Copy)]
pub struct Flags {
    pub logical: [bool; PROCESSES],
    pub saved: [bool; PROCESSES],
    pub closed: [bool; CHANNELS],
    pub sent: [bool; CHANNELS],
}

// How many entries the message log of each process and the channel log of each channel has.
#[derive(Clone, Copy)]
pub struct Counts {
    pub messages: [u8; PROCESSES],
    pub channels: [u8; CHANNELS],
}

#[derive(Clone, Copy)]
pub struct State {
    pub topology: Topology,
    pub round: Round,
    pub words: [u32; PROCESSES],
    pub tags: [bool; PROCESSES],
    pub places: [Places; CHANNELS],
    pub lengths: [u8; CHANNELS],
    pub flags: Flags,
    pub counts: Counts,
}

// Steps 1 to 8 of document 01, in its order: send, take, begin, copy, mark, note, finish, give up.
#[derive(Clone, Copy)]
pub enum Step {
    Send { channel: u8, body: u32 },
    Receive { channel: u8 },
    Begin,
    PhysicalCheckpoint { process: u8 },
    LogicalCheckpoint { process: u8 },
    SendMarker { channel: u8 },
    Commit,
    Abort,
}

// A record's content: a step, or kind 9, the recover (document 01's restart). (No Option of a step: a recover is a call
// as a step is, and the definitions' lists of calls name both.)
#[derive(Clone, Copy)]
pub enum Record {
    Call(Step),
    Recover,
}

// A list of calls (document 02's step list) is a slice of records. "at most 256 steps, restarts included"
pub const LISTED: usize = 256;

// The refusals of documents 01 and 02 under their numbers. What may be refused answers a Result with one of them.
#[derive(Clone, Copy, Debug, PartialEq, Eq)]
pub enum Refusal {
    ProcessCount = 1,
    ChannelCount,
    UnknownEnd,
    SelfChannel,
    DoubledChannel,
    ShortStore,
    Malformed,
    NoSuch,
    ChannelFull,
    ChannelEmpty,
    LogFull,
    NotNow,
    LastLine,
    MarkerOnClosed,
    Unsound,
    BadCount,
    NothingRefused,
    LongList,
    UnknownLate,
}

// What a step answers: done; a message sent, with how many entries its channel can still hold; a message received
// (took), with its body; a marker received (note); refused; or the power was lost (cut).
#[derive(Clone, Copy)]
pub enum Outcome {
    Done,
    Sent(u8),
    Received(u32),
    ReceivedMarker,
    Refused(Refusal),
    PowerLost,
}

// Full current: more writes than any step makes.
pub const FULL_BUDGET: u32 = u32::MAX;

// A step's answer: its outcome, how many writes it made, and the state after it.
#[derive(Clone, Copy)]
pub struct Answer {
    pub outcome: Outcome,
    pub made: u32,
    pub state: State,
}
