// The histories of all processes (document 01's books): arrays side by side, since a change of the round sets one of
// them whole (after a recover the counts are the lines), and entries with a count, since there is no heap.
ghost use Rattle.slow.specs.Within.{Rows, Few, LinesWithin, MarksWithin};

use model::{LISTED, PROCESSES};

// Of each process: the places in the past of the deeds that entered its history, and how many they are; its place in
// the last finished line; and its mark of this round. Every history has room, and its place in the line and its mark
// are within it.
#[derive(Clone, Copy)]
pub struct Histories {
    pub entries: [[u8; LISTED]; PROCESSES],
    pub counts: [u16; PROCESSES],
    pub lines: [u16; PROCESSES],
    pub marks: [Option<u16>; PROCESSES],
    pub ghost rows: { Rows entries },
    pub ghost room: { Few counts },
    pub ghost line: { LinesWithin lines counts },
    pub ghost mark: { MarksWithin marks counts },
}
