// The types of the second account of document 01 (document 02, M-106), which is in specs/: no code is here.
#![tactic(auto)]

// What a call did, by its answer: its kind, 1 to 9, or 0 where it was not accepted; its process and channel; the body
// sent or received; whether a marker was received; how many writes it made. (The kind is a number, and no enum: the
// account's definitions and theorems, from `did` on, are said of document 01's numbers and of 0; and `marker` no Option
// of the body, since `deed_by` has both.)
#[derive(Clone, Copy)]
pub struct Deed {
    pub kind: u8,
    pub process: u8,
    pub channel: u8,
    pub body: u32,
    pub marker: bool,
    pub made: u32,
}

// Whether an entry goes into the message log of its receiver (board log), and into its channel's log (wire log).
#[derive(Clone, Copy)]
pub struct NeededLogs {
    pub message: bool,
    pub channel: bool,
}
