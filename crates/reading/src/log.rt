// What a store holds, by the rules of its form: its line, the words of processes, and what channels held.
ghost use Rattle.std.specs.Prelude.{◌≡◌, ◌+◌, ◌*◌, ◌<◌, ◌≤◌, ◌&&◌, length, nat_le, nat_lt};
ghost use Rattle.model.specs.Channel.{entries};
ghost use Rattle.model.specs.Word.{leave, replay_by, undo_by};
ghost use Rattle.model.specs.Form.{cell, cells_from, receipt_in};
ghost use Rattle.model.specs.Layout.{present, message_entry_cells};
ghost use Rattle.model.specs.Recover.{stored_line};
ghost use Rattle.reading.specs.Source.{form_of, Lies, receipts_at, word_at, word_read, channel_read};

use crate::form::{Form, old_enter};
use model::{CHANNELS, Channel, PLACES, PROCESSES, Receipt};
use rules::layout::CHANNEL_ENTRY_CELLS;
use rules::{channel, layout, word};

// The last recovery line finished; 0 where the store has no cell.
#[tactic(auto, unfolding(model::specs::Recover::stored_line, model::specs::Form::cell))]
pub fn line(store: &[u32]) -> u32
    ensures { result ≡ stored_line store.now }
{
    store.get(layout::LINE_CELL).copied().unwrap_or(0)
}

// The receipt in the entry of a message log that begins in the cell at, in the present form: body, then channel. (Store
// and cell stay two in this file: the promises are said of the store and of where a thing begins in it.)
#[tactic(auto, unfolding(model::specs::Form::cell, model::specs::Form::cells_from))]
fn receipt(store: &[u32], at: usize) -> Receipt
    requires { at + message_entry_cells ≤ length store.now }
    ensures { result ≡ receipt_in (cells_from store.now message_entry_cells at) }
{
    Receipt {
        channel: store[at + 1],
        body: store[at],
    }
}

// What the entry of a message log that begins in the cell at makes of a word. An old one doesn't tell the channel.
#[tactic(auto, unfolding(model::specs::Form::cell, model::specs::Form::cells_from))]
fn entered(form: Form, store: &[u32], at: usize, word: u32) -> u32
    requires { at + (form_of form).message_cells ≤ length store.now }
    ensures { result ≡ (form_of form).enter word
        (receipt_in (cells_from store.now (form_of form).message_cells at)) }
{
    match form {
        Form::Old => {
            let receipt = Receipt {
                channel: 0,
                body: store[at],
            };
            old_enter(word, receipt)
        }
        Form::Present => word::enter(word, receipt(store, at)),
    }
}

// The word of the process whose record begins in the cell at: its message log replayed on its physical checkpoint. The
// entry's cell runs on by itself: "no multiplying or dividing for it is to stand in the inner loop".
#[tactic(auto, unfolding(model::specs::Form::cell))]
fn replayed(form: Form, store: &[u32], at: usize) -> u32
    requires { Lies (form_of form) store.now at }
    ensures { result ≡ replay_by (form_of form).enter (cell store.now at)
        (receipts_at (form_of form) store.now at) }
{
    let cells = form.message_cells();
    let mut entry = at + 2;
    let mut word = store[at];
    for _ in 0..store[at + 1] {
        word = entered(form, store, entry, word);
        entry += cells;
    }
    word
}

// The same of a late process, in the present form: the anti-messages of its log undone on its physical checkpoint, the
// last one first.
#[tactic(auto, unfolding(model::specs::Form::cell))]
fn undone(store: &[u32], at: usize) -> u32
    requires { Lies present store.now at }
    ensures { result ≡ undo_by leave (cell store.now at) (receipts_at present store.now at) }
{
    let n = store[at + 1] as usize;
    let mut entry = at + 2 + layout::MESSAGE_ENTRY_CELLS * n;
    let mut word = store[at];
    for _ in (0..n).rev() {
        entry -= layout::MESSAGE_ENTRY_CELLS;
        word = word::leave(word, receipt(store, entry));
    }
    word
}

// Either of the two, as the process is late or not; in the old form there are no anti-messages.
#[tactic(auto, unfolding(model::specs::Form::restore, model::specs::Form::restore_by))]
fn restored(form: Form, store: &[u32], at: usize, late: bool) -> u32
    requires { Lies (form_of form) store.now at }
    ensures { result ≡ word_at (form_of form) late store.now at }
{
    match form {
        Form::Present if late => undone(store, at),
        _ => replayed(form, store, at),
    }
}

// Whether a log, whose count stands in the cell at, is in the store with all of its places, and within these.
#[tactic(auto, unfolding(model::specs::Form::cell))]
fn is_whole(store: &[u32], at: usize, entry_cells: usize, places: u8) -> bool
    requires { at + entry_cells * places < 4294967296 }
    ensures { result ≡ nat_lt (at + entry_cells * places) (length store.now)
        && nat_le (cell store.now at) places }
{
    at + entry_cells * (places as usize) < store.len() && store[at] <= places as u32
}

// The word of a process, which is late or not, at the store's line; 0 where there can be none such, its record isn't in
// the store, or its log is over its places.
pub fn word(form: Form, store: &[u32], process: u8, late: bool) -> u32
    ensures { result ≡ word_read (form_of form) late store.now process }
{
    let at = form.physical_cell(line(store), process);
    let possible = (process as usize) < PROCESSES;
    let whole = possible & is_whole(store, at + 1, form.message_cells(), layout::MESSAGE_PLACES);
    if whole {
        restored(form, store, at, late)
    } else {
        0
    }
}

// A channel at the store's line, as messages tagged 0; empty where there can be none such, its record isn't in the
// store, or its log is over its places. Open are the places past its length: all of the log's are copied, since a
// number of turns that is known costs less.
pub fn channel(form: Form, store: &[u32], channel: u8) -> Channel
    ensures { entries result ≡ channel_read (form_of form) store.now channel }
{
    let at = form.channel_count_cell(line(store), channel);
    let possible = (channel as usize) < CHANNELS;
    let whole = possible & is_whole(store, at, CHANNEL_ENTRY_CELLS, layout::CHANNEL_PLACES);
    if !whole {
        return channel::empty();
    }
    let mut bodies = [0; PLACES];
    // (by copy_from_slice, tried, a recover took more instructions: it asks each time whether the two overlap)
    for i in 0..layout::CHANNEL_PLACES as usize {
        bodies[i] = store[at + 1 + i];
    }
    let mut places = channel::blank();
    places.bodies = bodies;
    channel::held(places, store[at] as u8)
}
