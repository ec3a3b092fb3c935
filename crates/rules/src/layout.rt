// Where each thing stands in the store. line is the recovery line that the slot (document 01's half) is for.
ghost use Rattle.std.specs.Prelude.{◌≡◌};
ghost use Rattle.model.specs.Layout.{slot, physical_cell, count_cell, message_log, channel_log};

// How many cells the store has.
pub const STORE_CELLS: usize = 5313;

// The cell of the last recovery line finished.
pub const LINE_CELL: usize = 0;

// How many cells a slot has, and in it the record of a process and that of a channel.
const SLOT_CELLS: usize = 2656;

pub const PROCESS_CELLS: usize = 130;

pub const CHANNEL_CELLS: usize = 9;

// Where in a slot the channels' records start.
const CHANNELS_START: usize = 2080;

// How many entries a message log and a channel log hold: "board log (64 places)", "wire log (8 places)".
pub const MESSAGE_PLACES: u8 = 64;

pub const CHANNEL_PLACES: u8 = 8;

// How many cells an entry of a message log has, body and channel, and one of a channel log, the body.
pub const MESSAGE_ENTRY_CELLS: usize = 2;

pub const CHANNEL_ENTRY_CELLS: usize = 1;

// The first cell of a line's slot.
#[tactic(auto, using(crate::proofs::Places::slot_at))]
fn slot(line: u32) -> usize
    ensures { result ≡ slot line }
{
    1 + SLOT_CELLS * ((line % 2) as usize)
}

// The cell of a process's physical checkpoint (document 01's copy), with which its record begins.
#[tactic(auto, using(crate::proofs::Places::slot_at, crate::proofs::Places::physical_at))]
pub fn physical_cell(line: u32, process: u8) -> usize
    ensures { result ≡ physical_cell line process }
{
    slot(line) + PROCESS_CELLS * (process as usize)
}

// The cell of the count of a process's message log.
#[tactic(auto, using(crate::proofs::Places::physical_at, crate::proofs::Places::message_count_at))]
pub fn message_count_cell(line: u32, process: u8) -> usize
    ensures { result ≡ count_cell line (message_log process) }
{
    physical_cell(line, process) + 1
}

// The cell of the count of a channel's log, with which its record begins.
#[tactic(auto, using(crate::proofs::Places::slot_at, crate::proofs::Places::channel_count_at))]
pub fn channel_count_cell(line: u32, channel: u8) -> usize
    ensures { result ≡ count_cell line (channel_log channel) }
{
    slot(line) + CHANNELS_START + CHANNEL_CELLS * (channel as usize)
}
