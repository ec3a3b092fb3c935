// The two forms of the store: where each thing stands in a store of either, and the old one's word rule. The present
// form's numbers are those of rules::layout.
ghost use Rattle.std.specs.Prelude.{◌≡◌};
ghost use Rattle.model.specs.Form.{process_cells, store_cells, slot, physical_cell, count_cell, channel_log};
ghost use Rattle.reading.specs.Old.{old, old_enter};
ghost use Rattle.reading.specs.Source.{form_of, Small};

use model::Receipt;
use rules::{layout, word};

// Document 01's store, and that of document 02's M-101.
#[derive(Clone, Copy)]
pub enum Form {
    Old,
    Present,
}

// How many cells the old form has, in it a slot, and in a slot the record of a process.
pub const OLD_STORE_CELLS: usize = 3265;

const OLD_SLOT_CELLS: usize = 1632;

const OLD_PROCESS_CELLS: usize = 66;

// Where in a slot of the old form the channels' records start.
const OLD_CHANNELS_START: usize = 1056;

// The first cell of a line's slot, in the old form. (rules::layout has the present form's, of which the engine asks on
// its way through each step: there the numbers stay constants, so that each form keeps its own sum below.)
#[tactic(auto, unfolding(model::specs::Form::slot))]
fn old_slot(line: u32) -> usize
    ensures { result ≡ slot old line }
{
    1 + OLD_SLOT_CELLS * ((line % 2) as usize)
}

impl Form {
    // How many cells an entry of a message log has, the record of a process, and the store.
    pub fn message_cells(self) -> usize
        ensures { Small (form_of self).message_cells result }
    {
        match self {
            Form::Old => 1,
            Form::Present => layout::MESSAGE_ENTRY_CELLS,
        }
    }

    pub fn process_cells(self) -> usize
        ensures { Small (process_cells (form_of self)) result }
    {
        match self {
            Form::Old => OLD_PROCESS_CELLS,
            Form::Present => layout::PROCESS_CELLS,
        }
    }

    pub fn store_cells(self) -> usize
        ensures { result ≡ store_cells (form_of self) }
    {
        match self {
            Form::Old => OLD_STORE_CELLS,
            Form::Present => layout::STORE_CELLS,
        }
    }

    // The cell of a process's physical checkpoint. The count of its message log is in the next one.
    #[tactic(auto, unfolding(model::specs::Form::slot, model::specs::Form::process_record, model::specs::Form::physical_cell))]
    pub fn physical_cell(self, line: u32, process: u8) -> usize
        ensures { Small (physical_cell (form_of self) line process) result }
    {
        match self {
            Form::Old => old_slot(line) + OLD_PROCESS_CELLS * (process as usize),
            Form::Present => layout::physical_cell(line, process),
        }
    }

    // The cell of the count of a channel's log.
    #[tactic(auto, unfolding(model::specs::Form::slot, model::specs::Form::channel_record, model::specs::Form::count_cell))]
    pub fn channel_count_cell(self, line: u32, channel: u8) -> usize
        ensures { Small (count_cell (form_of self) line (channel_log channel)) result }
    {
        match self {
            Form::Old => old_slot(line)
                + OLD_CHANNELS_START
                + layout::CHANNEL_CELLS * (channel as usize),
            Form::Present => layout::channel_count_cell(line, channel),
        }
    }
}

// The old word rule: 31 × word + body, modulo 2^32.
pub fn old_enter(word: u32, receipt: Receipt) -> u32
    ensures { result ≡ old_enter word receipt }
{
    word::product(word).wrapping_add(receipt.body)
}
