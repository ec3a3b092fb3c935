// The work of the programs `head` and `drill`: one function from the input's bytes to the output's bytes each. They
// differ in where a call's budget comes from, in the store at first, and in what is printed of it, and are two, since
// each promises a text of its own (`head_text`, `drill_text`); what they share is `play`.
#![tactic(auto)]

mod play;
mod request;
mod serve;

ghost use Rattle.std.specs.Prelude.{◌≡◌, replicate};
ghost use Rattle.report.specs.Appends.{WholeText};
ghost use Rattle.report.specs.Text.{head_text};
ghost use Rattle.session.specs.Drill.{drill_text};
ghost use Rattle.session.specs.Output.{output_bytes};

use crate::request::BudgetSource;
use rules::layout::STORE_CELLS;

// No output is longer than this: specs/Output.antt has the sum.
const OUTPUT_BYTES: usize = 1570350;

// A buffer that holds every output.
pub fn buffer() -> [u8; OUTPUT_BYTES]
    ensures { result ≡ replicate output_bytes 0 }
{
    [0; OUTPUT_BYTES]
}

// What `head` prints for an input, and how many bytes that is: each call with full current, on a store of zeros.
pub fn head(input: &[u8], out: &mut [u8; OUTPUT_BYTES]) -> usize
    ensures { WholeText (head_text input.now) out.old out.new result }
{
    let mut store = [0u32; STORE_CELLS];
    play::play(BudgetSource::Full, input, &mut store, out)
}

// What `drill` prints for an input, and how many bytes that is: each call with the budget given before it, on a store
// full of rubbish, and last the cells that differ.
pub fn drill(input: &[u8], out: &mut [u8; OUTPUT_BYTES]) -> usize
    ensures { WholeText (drill_text input.now) out.old out.new result }
{
    let mut store = [0u32; STORE_CELLS];
    report::cells::fill(&mut store);
    let at = play::play(BudgetSource::Given, input, &mut store, out);
    report::cells::changed(&store, out, at)
}
