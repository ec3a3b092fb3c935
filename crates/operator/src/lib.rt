// The work of the programs `console` and `converter`: one function from the input's bytes to the output's bytes each.
// The first byte says what is asked, and the first 65,536 bytes after it are what it is asked of. (That they are no
// more is required of the slice by each question's function: a slice's type can't say it.)
#![tactic(auto)]

mod carry;
mod cells;
mod list;
mod planned;
mod print;
mod reduce;
mod refused;
mod replay;
mod tell;

ghost use Rattle.std.specs.Prelude.{◌≡◌, ◌≤◌, length, replicate};
ghost use Rattle.model.specs.Program.{input_bytes};
ghost use Rattle.report.specs.Appends.{WholeText};
ghost use Rattle.operator.specs.Console.{bytes_taken, asked_in, taken_in, console};
ghost use Rattle.operator.specs.ConsoleText.{console_bytes, Tells};
ghost use Rattle.operator.specs.File.{file, file_bytes, Files};
ghost use Rattle.operator.specs.Printing.{Answered};

use crate::carry::Way;
use crate::refused::Refused;
use crate::tell::tell;
use model::Refusal;

// How many bytes of an input are taken: the one that asks, and 65,536 more.
const TAKEN_BYTES: usize = 65537;

// No output of `console` is longer than this: specs/ConsoleText.antt has the sum.
const CONSOLE_BYTES: usize = 143456;

// And none of `converter` than this: `done`, and the cells of a store of the new form.
const FILE_BYTES: usize = 21257;

// The part of a list that matters (document 02, M-100).
const REDUCTION: u8 = 1;

// A store carried to the new form, and one carried back (document 02, M-102).
const UPGRADE: u8 = 2;

const DOWNGRADE: u8 = 3;

// A list run by the slow engine (document 02, M-106).
const REPLAY: u8 = 4;

// What the first byte asks, of what is known.
#[derive(Clone, Copy)]
enum Question {
    Reduction,
    Carry(Way),
    Replay,
}

// What is answered where nothing known is asked.
const NOTHING_KNOWN: Refused = Refused::Other(Refusal::Malformed);

// A buffer for all that is taken of an input.
pub fn input_buffer() -> [u8; TAKEN_BYTES]
    ensures { result ≡ replicate bytes_taken 0 }
{
    [0; TAKEN_BYTES]
}

// A buffer that holds every output of `console`.
pub fn buffer() -> [u8; CONSOLE_BYTES]
    ensures { result ≡ replicate console_bytes 0 }
{
    [0; CONSOLE_BYTES]
}

// A buffer that holds every output of `converter`.
pub fn file_buffer() -> [u8; FILE_BYTES]
    ensures { result ≡ replicate file_bytes 0 }
{
    [0; FILE_BYTES]
}

// What the first byte asks, if that is known.
#[tactic(auto, unfolding(crate::specs::Console::asked_in))]
fn asked(input: &[u8]) -> Option<Question>
    ensures { result ≡ asked_in input.now }
{
    match input {
        [REDUCTION, ..] => Some(Question::Reduction),
        [UPGRADE, ..] => Some(Question::Carry(Way::Upgrade)),
        [DOWNGRADE, ..] => Some(Question::Carry(Way::Downgrade)),
        [REPLAY, ..] => Some(Question::Replay),
        _ => None,
    }
}

// What it is asked of.
#[tactic(auto, unfolding(crate::specs::Console::taken_in))]
fn taken(input: &[u8]) -> &[u8]
    ensures value { result.now ≡ taken_in input.now }
    ensures few { length result.now ≤ input_bytes }
{
    let [_, rest @ ..] = input else {
        return input;
    };
    plan::taken(rest)
}

// What `console` answers: how many bytes it prints, or why only a line is to be printed.
fn answer(input: &[u8], out: &mut [u8]) -> Result<usize, Refused>
    ensures { Answered (console input.now) out.old out.new result }
{
    let bytes = taken(input);
    match asked(input) {
        Some(Question::Reduction) => reduce::reduce(bytes, out),
        Some(Question::Carry(way)) => carry::show(way, bytes, out),
        Some(Question::Replay) => replay::replay(bytes, out),
        None => Err(NOTHING_KNOWN),
    }
}

// What `console` prints for an input, and how many bytes that is.
pub fn console(input: &[u8], out: &mut [u8; CONSOLE_BYTES]) -> usize
    ensures { Tells input.now out.old out.new result }
{
    match answer(input, out) {
        Ok(n) => n,
        Err(refused) => tell(refused, out),
    }
}

// What `converter` answers. Only the carrying of a store is known to it.
#[tactic(auto, unfolding(crate::specs::File::file, crate::specs::File::file_to, crate::specs::ConsoleText::answer_text))]
fn filed(input: &[u8], out: &mut [u8]) -> Result<usize, Refused>
    ensures { Files (file input.now) out.old out.new result }
{
    match asked(input) {
        Some(Question::Carry(way)) => carry::file(way, taken(input), out),
        Some(Question::Reduction | Question::Replay) | None => Err(NOTHING_KNOWN),
    }
}

// What `converter` prints for an input, and how many bytes that is. (It ends as `console` does, in four lines; each
// promises a text of its own, `file` and `Tells`.)
pub fn convert(input: &[u8], out: &mut [u8; FILE_BYTES]) -> usize
    ensures { WholeText (file input.now) out.old out.new result }
{
    match filed(input, out) {
        Ok(n) => n,
        Err(refused) => tell(refused, out),
    }
}
