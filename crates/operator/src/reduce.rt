// Question 1, the part of a list that matters: from a plan and records to the lines of a part, or a refusal.
ghost use Rattle.std.specs.Prelude.{◌≤◌, length};
ghost use Rattle.model.specs.Program.{input_bytes};
ghost use Rattle.operator.specs.Console.{reduction};
ghost use Rattle.operator.specs.Printing.{Answered};

use crate::refused::Refused;
use crate::{list, planned, print};

pub fn reduce(bytes: &[u8], out: &mut [u8]) -> Result<usize, Refused>
    requires { length bytes.now ≤ input_bytes }
    ensures { Answered (reduction bytes.now) out.old out.new result }
{
    let topology = planned::read(bytes)?;
    let read = list::read(plan::rest(bytes));
    read.end?;
    let list = &read.calls[..read.count];
    let found = reduction::reduce(topology, list)?;
    let at = report::plan_line(out, 0, plan::own(bytes));
    Ok(print::part(list, &found, out, at))
}
