// Questions 2 and 3, a store carried to the new form and back: from a plan and the source's cells to the target.
ghost use Rattle.std.specs.Prelude.{◌≡◌, ◌≤◌, length};
ghost use Rattle.model.specs.Form.{store_cells};
ghost use Rattle.model.specs.Program.{input_bytes};
ghost use Rattle.migration.specs.Carry.{carry};
ghost use Rattle.migration.specs.Carries.{Carries};
ghost use Rattle.report.specs.Appends.{Appends};
ghost use Rattle.report.specs.Changed.{start_store};
ghost use Rattle.operator.specs.Carrying.{source_form, target_form, carrying, ending_in};
ghost use Rattle.operator.specs.ConsoleText.{done_bytes, done_text};
ghost use Rattle.operator.specs.File.{FilesStore};
ghost use Rattle.operator.specs.Printing.{Answered};

use crate::cells::{CELL_BYTES, SOURCE_CELLS};
use crate::refused::Refused;
use crate::{cells, planned};
use model::{Refusal, Topology};
use reading::form::OLD_STORE_CELLS;
use rules::layout::STORE_CELLS;

// To the new form, or back.
#[derive(Clone, Copy)]
pub enum Way {
    Upgrade,
    Downgrade,
}

// With a plan and a source at hand. (A match: the way picks the definition's forms, `source_form` and `target_form`.)
fn carried(way: Way, topology: Topology, source: &[u32], target: &mut [u32]) -> Result<(), Refusal>
    ensures { Carries (carry (source_form way) (target_form way) topology source.now
        target.old) result target.new }
{
    match way {
        Way::Upgrade => migration::upgrade(topology, source, target),
        Way::Downgrade => migration::downgrade(topology, source, target),
    }
}

// With the plan that the bytes begin with, and the cells in the bytes after it: into any target.
fn carry(way: Way, bytes: &[u8], target: &mut [u32]) -> Result<(), Refused>
    requires { length bytes.now ≤ input_bytes }
    ensures { ending_in result target.new
        ≡ carrying (source_form way) (target_form way) bytes.now target.old }
{
    let topology = planned::read(bytes)?;
    let rest = plan::rest(bytes);
    if rest.len() % CELL_BYTES != 0 {
        return Err(Refused::Other(Refusal::Malformed));
    }
    let mut source = [0u32; SOURCE_CELLS];
    cells::read(rest, &mut source);
    let count = rest.len() / CELL_BYTES;
    carried(way, topology, &source[..count], target)?;
    Ok(())
}

// The line of a store that is carried.
fn done(out: &mut [u8]) -> usize
    ensures { Appends done_bytes out.old 0 done_text out.new result }
{
    report::bytes(out, 0, b"done\n")
}

// What `console` prints: that line, and of a target that was full of rubbish the cells that have changed.
pub fn show(way: Way, bytes: &[u8], out: &mut [u8]) -> Result<usize, Refused>
    requires { length bytes.now ≤ input_bytes }
    ensures { Answered (carrying (source_form way) (target_form way) bytes.now start_store)
        out.old out.new result }
{
    let mut shown = [0u32; STORE_CELLS];
    report::cells::fill(&mut shown);
    carry(way, bytes, &mut shown)?;
    let at = done(out);
    Ok(report::cells::changed(&shown, out, at))
}

// How many cells the target's form has: a match, as the way picks the form.
fn target_cells(way: Way) -> usize
    ensures { result ≡ store_cells (target_form way) }
{
    match way {
        Way::Upgrade => STORE_CELLS,
        Way::Downgrade => OLD_STORE_CELLS,
    }
}

// What `converter` prints: that line, and of a target that was zeros all cells.
pub fn file(way: Way, bytes: &[u8], out: &mut [u8]) -> Result<usize, Refused>
    requires { length bytes.now ≤ input_bytes }
    ensures { FilesStore way bytes.now out.old out.new result }
{
    let mut target = [0u32; STORE_CELLS];
    carry(way, bytes, &mut target)?;
    let at = done(out);
    let count = target_cells(way);
    Ok(cells::write(&target[..count], out, at))
}
