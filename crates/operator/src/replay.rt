// Question 4, a list run by the slow engine (document 02, M-106), to be held beside `head`: from a plan and records to
// what `head` prints of them, each answer and the last state by `slow::replay` alone.
ghost use Rattle.std.specs.Prelude.{◌*◌, ◌≤◌, length};
ghost use Rattle.model.specs.CallList.{list_limit};
ghost use Rattle.model.specs.Program.{input_bytes};
ghost use Rattle.report.specs.Appends.{Appends};
ghost use Rattle.report.specs.Text.{lines_text};
ghost use Rattle.report.specs.TextBytes.{line_bytes};
ghost use Rattle.operator.specs.Console.{replaying};
ghost use Rattle.operator.specs.Printing.{Answered};
ghost use Rattle.operator.specs.Replaying.{answer_line, answer_lines, end_line};

use crate::refused::Refused;
use crate::{list, planned};
use model::{Outcome, Refusal};
use slow::{CallAnswer, CallOutcome};

// A call's line, by either kind of answer. (Buffer and position stay two, as in `report`.)
fn line(out: &mut [u8], at: usize, number: u32, answer: CallAnswer) -> usize
    ensures { Appends line_bytes out.old at (answer_line number answer) out.new result }
{
    match answer.outcome {
        CallOutcome::Step(o) => report::outcome_line(out, at, number, o, answer.made),
        CallOutcome::Line(k) => report::recover_line(out, at, number, k, answer.made),
    }
}

// The lines of these calls.
fn lines(answers: &[CallAnswer], out: &mut [u8]) -> usize
    requires { length answers.now ≤ list_limit }
    ensures { Appends (list_limit * line_bytes) out.old 0
        (answer_lines (length answers.now) answers.now) out.new result }
{
    let mut next = 0;
    for (i, &answer) in answers.iter().enumerate() {
        next = line(out, next, i as u32 + 1, answer);
    }
    next
}

// The line where the bytes break off, if they do.
fn broken_line(end: Result<(), Refusal>, number: u32, out: &mut [u8], at: usize) -> usize
    ensures { Appends line_bytes out.old at
        (lines_text (end_line end number)) out.new result }
{
    match end {
        Ok(()) => at,
        Err(r) => report::outcome_line(out, at, number, Outcome::Refused(r), 0),
    }
}

pub fn replay(bytes: &[u8], out: &mut [u8]) -> Result<usize, Refused>
    requires { length bytes.now ≤ input_bytes }
    ensures { Answered (replaying bytes.now) out.old out.new result }
{
    let topology = planned::read(bytes)?;
    let read = list::read(plan::rest(bytes));
    let replayed = slow::replay(topology, &read.calls[..read.count])?;
    let count = replayed.count as usize;
    let at = lines(&replayed.answers[..count], out);
    let next = broken_line(read.end, replayed.count as u32 + 1, out, at);
    Ok(report::ending::print(topology, replayed.state, out, next))
}
