// The operator's program `converter`, for files: the first byte of standard input and 65,536 more, as `console`'s
// questions 2 and 3 have them; and `done` and the whole store that is made, as bytes, or the line of a refusal.
#![tactic(auto)]

ghost use Rattle.std.specs.Prelude.{◌≡◌, OnOk};
ghost use Rattle.operator.specs.Console.{bytes_taken};
ghost use Rattle.operator.specs.File.{file};
ghost use Rattle.stream.specs.Answer.{Takes, Prints};

use std::io;
use std::io::{Read, Write};

// What is taken of a reader, and printed to a writer. (Four programs have this function. One for all would take the
// work as a closure, and be public and require that it may call it: no public function here requires anything. By a
// trait for the work each program would have a type and an impl, for the three lines that it would save.)
fn answer<R: Read, W: Write>(reader: &mut R, writer: &mut W) -> io::Result<()>
    ensures taken { OnOk result (Takes bytes_taken (R.remaining reader.old) (R.remaining reader.new)) }
    ensures printed { OnOk result (Prints bytes_taken (λ bytes text. text ≡ file bytes) (R.remaining reader.old)
        (W.contents writer.old) (W.contents writer.new)) }
{
    let mut input = operator::input_buffer();
    let n = stream::read_full(reader, &mut input)?;
    let mut out = operator::file_buffer();
    let end = operator::convert(&input[..n], &mut out);
    writer.write_all(&out[..end])
}

fn main(rt: HostRuntime) -> io::Result<()> {
    answer(&mut rt.stdin(), &mut rt.stdout())
}
