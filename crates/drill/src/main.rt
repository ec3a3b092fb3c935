// The test program `drill`: the first 65,536 bytes of standard input, each record after its write budget, and what is
// printed for them.
#![tactic(auto)]

ghost use Rattle.std.specs.Prelude.{◌≡◌, OnOk};
ghost use Rattle.model.specs.Program.{input_bytes};
ghost use Rattle.session.specs.Drill.{drill_text};
ghost use Rattle.stream.specs.Answer.{Takes, Prints};

use std::io;
use std::io::{Read, Write};

// What is taken of a reader, and printed to a writer. (Four programs have this function. One for all would take the
// work as a closure, and be public and require that it may call it: no public function here requires anything. By a
// trait for the work each program would have a type and an impl, for the three lines that it would save.)
fn answer<R: Read, W: Write>(reader: &mut R, writer: &mut W) -> io::Result<()>
    ensures taken { OnOk result (Takes input_bytes (R.remaining reader.old) (R.remaining reader.new)) }
    ensures printed { OnOk result (Prints input_bytes (λ bytes text. text ≡ drill_text bytes) (R.remaining reader.old)
        (W.contents writer.old) (W.contents writer.new)) }
{
    let mut input = stream::large_buffer();
    let n = stream::read_full(reader, &mut input)?;
    let mut out = session::buffer();
    let end = session::drill(&input[..n], &mut out);
    writer.write_all(&out[..end])
}

fn main(rt: HostRuntime) -> io::Result<()> {
    answer(&mut rt.stdin(), &mut rt.stdout())
}
