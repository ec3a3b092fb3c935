// The lines of a part: each kept call with its bytes and its number in the list. (Buffer and position stay two, as in
// `report`.)
ghost use Rattle.std.specs.Prelude.{◌≡◌, ◌<◌, get_or};
ghost use Rattle.model.specs.declared.Record.TheVariants.{Recover};
ghost use Rattle.model.specs.Outcome.{refusal_number};
ghost use Rattle.record.specs.Written.{longest};
ghost use Rattle.reduction.specs.Parts.{kept, Held};
ghost use Rattle.report.specs.Appends.{Appends};
ghost use Rattle.report.specs.TextBytes.{sent_bytes, last_bytes};
ghost use Rattle.operator.specs.ConsoleText.{is_send, kept_line, last_kept, part_text, part_bytes};

use model::{Record, Refusal, Step};
use reduction::Reduced;

// Whether a call is a send.
fn is_send(call: Record) -> bool
    ensures { result ≡ is_send call }
{
    matches!(call, Record::Call(Step::Send { .. }))
}

// The line of a kept call, and of a send how much room it said is left.
fn kept(call: Record, place: u8, room: u8, out: &mut [u8], at: usize) -> usize
    ensures { Appends (sent_bytes longest) out.old at (kept_line call place room) out.new result }
{
    let written = record::write(call);
    let bytes = &written.bytes[..written.count];
    let number = place as u32 + 1;
    if is_send(call) {
        return report::sent_line(out, at, bytes, number, room);
    }
    report::kept_line(out, at, bytes, number)
}

// The line of the last one, which is refused. (Beside `kept`, since each has a fault of its own in console_mistold.)
fn last(call: Record, place: u8, refusal: Refusal, out: &mut [u8], at: usize) -> usize
    ensures { Appends (last_bytes longest) out.old at (last_kept call place (refusal_number refusal)) out.new result }
{
    let written = record::write(call);
    let bytes = &written.bytes[..written.count];
    report::last_line(out, at, bytes, place as u32 + 1, refusal)
}

// All of them, of a list and what was found of it.
pub fn part(list: &[Record], found: &Reduced, out: &mut [u8], at: usize) -> usize
    requires { Held found.now.part × (0 < found.now.part.count) }
    ensures { Appends part_bytes out.old at
        (part_text (λ i. get_or list.now i Recover) (kept found.now.part) found.now.rooms
        (refusal_number found.now.refusal)) out.new result }
{
    // (a name, since it stands in four places)
    let places = found.part.places;
    let end = found.part.count as usize - 1;
    let mut next = at;
    for i in 0..end {
        let call = reduction::nth_call(list, places[i]);
        next = kept(call, places[i], found.rooms[i], out, next);
    }
    let call = reduction::nth_call(list, places[end]);
    last(call, places[end], found.refusal, out, next)
}
