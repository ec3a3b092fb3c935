// The text of each line that the programs print, written into a lent buffer; `hex` has those of `console`. Every
// function writes from the position at on, as far as the buffer goes, and answers the position after what it wrote. Its
// promise also says how many bytes the text has at most, so that a caller knows how long a buffer holds it whole.
//
// Two older forms stay, since `Appends`, which all these functions ensure, speaks of a buffer and a position and holds
// of any. Lines are put together by hand: `write!` promises its text only where it answers Ok, and doesn't say where.
// And buffer and position are two parameters: a struct of both would be made and taken apart in each public function.
#![tactic(auto)]

pub mod cells;
pub mod ending;
mod hex;

ghost use Rattle.std.specs.Prelude.{◌+◌, ◌*◌, ◌≡◌, [], ◌∷◌, ◌++◌, length};
ghost use Rattle.model.specs.Channel.{entries, bodies};
ghost use Rattle.model.specs.Outcome.{refusal_number, said_by};
ghost use Rattle.model.specs.Outcome as says;
ghost use Rattle.report.specs.Appends.{Appends, CallableBelow, PrintsEach, PrintsLine};
ghost use Rattle.report.specs.TextBytes.{number_bytes, value_bytes, said_bytes, line_bytes, named_bytes};
ghost use Rattle.report.specs.TextBytes.{plan_refused_bytes, process_bytes, channel_bytes, cell_bytes};
ghost use Rattle.report.specs.Text.{chars, decimal, values, named, said_text, said_line};
ghost use Rattle.report.specs.Text.{plan_refused_text, process_text, channel_text, cell_text};

pub use hex::{kept_line, last_line, plan_line, refused_line, sent_line};
use model::{Channel, Entry, Outcome, Refusal};
use rules::channel;
use rules::refusal::number;

// A text.
pub fn bytes(out: &mut [u8], at: usize, text: &[u8]) -> usize
    ensures { Appends (length text.now) out.old at
        text.now out.new result }
{
    if out.len() <= at {
        return at;
    }
    let fits = text.len().min(out.len() - at);
    out[at..at + fits].copy_from_slice(&text[..fits]);
    at + fits
}

// The texts that `text` writes for 0 to n - 1, one after the other.
fn each<F: Fn(&mut [u8], usize, usize) -> usize>(
    out: &mut [u8],
    at: usize,
    n: usize,
    text: F,
) -> usize
    requires { CallableBelow (F.pre text) n }
    ensures { PrintsEach (F.post text) n out.old at out.new result }
{
    let mut next = at;
    for i in 0..n {
        next = text(out, next, i);
    }
    next
}

// A number in decimal. (By hand, so that no crate of the kit has to be trusted for its digits.)
pub fn decimal(out: &mut [u8], at: usize, n: u32) -> usize
    ensures { Appends number_bytes out.old at (decimal n) out.new result }
{
    let next = if n < 10 { at } else { decimal(out, at, n / 10) };
    bytes(out, next, &[b'0' + (n % 10) as u8])
}

// A space and a number.
fn value(out: &mut [u8], at: usize, n: u32) -> usize
    ensures { Appends value_bytes out.old at (values (n ∷ [])) out.new result }
{
    let next = bytes(out, at, b" ");
    decimal(out, next, n)
}

// A name, a space and a number.
fn told(out: &mut [u8], at: usize, name: &[u8], n: u32) -> usize
    ensures { Appends (length name.now + value_bytes) out.old at
        (name.now ++ values (n ∷ [])) out.new result }
{
    let next = bytes(out, at, name);
    value(out, next, n)
}

// A line of a name and numbers.
fn named(out: &mut [u8], at: usize, name: &[u8], numbers: &[u32]) -> usize
    ensures { Appends (named_bytes (length name.now) (length numbers.now)) out.old at
        (named name.now numbers.now) out.new result }
{
    let mut next = bytes(out, at, name);
    for &n in numbers {
        next = value(out, next, n);
    }
    bytes(out, next, b"\n")
}

// A step's outcome, with its value if it has one: a match, since each case has a word of its own.
fn said(out: &mut [u8], at: usize, outcome: Outcome) -> usize
    ensures { Appends said_bytes out.old at (said_text (said_by outcome)) out.new result }
{
    match outcome {
        Outcome::Done => bytes(out, at, b"done"),
        Outcome::Sent(room) => told(out, at, b"sent", room as u32),
        Outcome::Received(body) => told(out, at, b"took", body),
        Outcome::ReceivedMarker => bytes(out, at, b"note"),
        Outcome::Refused(r) => told(out, at, b"refused", number(r) as u32),
        Outcome::PowerLost => bytes(out, at, b"cut"),
    }
}

// A request's line: its number, what `said` writes, and the writes made.
fn request_line<F: Fn(&mut [u8], usize) -> usize>(
    out: &mut [u8],
    at: usize,
    number: u32,
    said: F,
    made: u32,
) -> usize
    requires { F.IsAlwaysCallable said }
    ensures { PrintsLine (F.post said) number made out.old at out.new result }
{
    let counted = decimal(out, at, number);
    let opened = bytes(out, counted, b" ");
    let told = said(out, opened);
    named(out, told, b"", &[made])
}

// A step's line.
pub fn outcome_line(out: &mut [u8], at: usize, number: u32, outcome: Outcome, made: u32) -> usize
    ensures { Appends line_bytes out.old at
        (said_line number (said_by outcome) made) out.new result }
{
    request_line(out, at, number, |out, at| said(out, at, outcome), made)
}

// A recover's line.
pub fn recover_line(out: &mut [u8], at: usize, number: u32, line: u32, made: u32) -> usize
    ensures { Appends line_bytes out.old at
        (said_line number (says.line line) made) out.new result }
{
    request_line(
        out,
        at,
        number,
        |out, at| told(out, at, b"line", line),
        made,
    )
}

// The line for a plan that is refused.
pub fn plan_refused(out: &mut [u8], at: usize, r: Refusal) -> usize
    ensures { Appends plan_refused_bytes out.old at
        (plan_refused_text (refusal_number r)) out.new result }
{
    named(out, at, b"plan refused", &[number(r) as u32])
}

// The line of a process (board) with its word.
pub fn process_line(out: &mut [u8], at: usize, p: u32, word: u32) -> usize
    ensures { Appends process_bytes out.old at (process_text p word) out.new result }
{
    named(out, at, b"board", &[p, word])
}

// The line of a store's cell with its value.
pub fn cell_line(out: &mut [u8], at: usize, i: u32, v: u32) -> usize
    ensures { Appends cell_bytes out.old at (cell_text i v) out.new result }
{
    named(out, at, b"cell", &[i, v])
}

// How many messages a channel holds. (`n` counts them, and no index: there is no slice of entries to filter.)
fn messages(c: Channel) -> u32
    ensures { result ≡ length (bodies (entries c)) }
{
    let mut n = 0;
    for i in 0..channel::length(c) {
        if let Entry::Message { .. } = channel::entry_at(c, i) {
            n += 1;
        }
    }
    n
}

// The bodies of a channel's messages, each after a space.
fn bodies(out: &mut [u8], at: usize, c: Channel) -> usize
    ensures { Appends (length (entries c) * value_bytes) out.old at
        (values (bodies (entries c))) out.new result }
{
    let mut next = at;
    for i in 0..channel::length(c) {
        if let Entry::Message { body, .. } = channel::entry_at(c, i) {
            next = value(out, next, body);
        }
    }
    next
}

// The line of a channel (wire) with its messages: their number, and their bodies.
pub fn channel_line(out: &mut [u8], at: usize, c: u32, channel: Channel) -> usize
    ensures { Appends (channel_bytes (length (entries channel))) out.old at
        (channel_text c (bodies (entries channel))) out.new result }
{
    let named = bytes(out, at, b"wire");
    let next = value(out, named, c);
    let counted = value(out, next, messages(channel));
    let listed = bodies(out, counted, channel);
    bytes(out, listed, b"\n")
}
