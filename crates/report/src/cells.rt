// The cells of a lent store, for the programs that show them: what they hold before anything is done, and which of them
// differ from that at the end.
ghost use Rattle.std.specs.Prelude.{◌≡◌, ◌*◌, ◌<◌};
ghost use Rattle.model.specs.Layout.{store_cells};
ghost use Rattle.report.specs.Appends.{Appends};
ghost use Rattle.report.specs.TextBytes.{cell_bytes};
ghost use Rattle.report.specs.Changed.{start_cell, start_store, changed_line, changed_text};

use crate::{cell_line, each};
use rules::layout::STORE_CELLS;
use rules::word::MODULUS;

// 2,654,435,761 × i modulo 2^32.
fn start_cell(i: usize) -> u32
    requires { i < store_cells }
    ensures { result ≡ start_cell i }
{
    (2654435761 * (i as u64) % MODULUS) as u32
}

// The store at first.
pub fn fill(store: &mut [u32; STORE_CELLS])
    ensures { store.new ≡ start_store }
{
    *store = std::array::from_fn(start_cell);
}

// A cell's line, if it differs.
fn differing(store: &[u32; STORE_CELLS], out: &mut [u8], at: usize, i: usize) -> usize
    requires { i < store_cells }
    ensures { Appends cell_bytes out.old at (changed_line store.now i) out.new result }
{
    let value = store[i];
    if value == start_cell(i) {
        return at;
    }
    cell_line(out, at, i as u32, value)
}

// A line for each cell that differs.
pub fn changed(store: &[u32; STORE_CELLS], out: &mut [u8], at: usize) -> usize
    ensures { Appends (store_cells * cell_bytes) out.old at
        (changed_text store.now) out.new result }
{
    each(
        out,
        at,
        STORE_CELLS,
        |out, at, i| differing(store, out, at, i),
    )
}
