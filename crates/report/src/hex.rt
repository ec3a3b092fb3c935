// The lines that `console` prints for a reduced list of calls: the plan's bytes, each kept call with its bytes and its
// number in the list, and the refusal.
ghost use Rattle.std.specs.Prelude.{◌<◌, ◌≡◌, length};
ghost use Rattle.model.specs.Outcome.{refusal_number};
ghost use Rattle.report.specs.Appends.{Appends};
ghost use Rattle.report.specs.TextBytes.{hex_bytes_bytes, plan_line_bytes, call_bytes, kept_bytes, last_bytes};
ghost use Rattle.report.specs.TextBytes.{sent_bytes, refused_bytes};
ghost use Rattle.report.specs.Hex.{hex_digit, hex_byte, hex_bytes, plan_line_text, call_text, kept_text, last_text};
ghost use Rattle.report.specs.Hex.{sent_text, refused_text};

use crate::{decimal, named};
use model::Refusal;
use rules::refusal::number;

// The character of a hexadecimal digit. (By hand, as every line here is put together: lib.rt says why.)
#[tactic(auto, unfolding(crate::specs::Hex::hex_digit))]
fn hex_digit(d: u8) -> u8
    requires { d < 16 }
    ensures { result ≡ hex_digit d }
{
    if d < 10 { b'0' + d } else { b'A' + (d - 10) }
}

// A byte in hexadecimal.
fn hex_byte(out: &mut [u8], at: usize, b: u8) -> usize
    ensures { Appends 2 out.old at (hex_byte b) out.new result }
{
    crate::bytes(out, at, &[hex_digit(b / 16), hex_digit(b % 16)])
}

// Bytes in hexadecimal, with one space between.
fn hex_bytes(out: &mut [u8], at: usize, bytes: &[u8]) -> usize
    ensures { Appends (hex_bytes_bytes (length bytes.now)) out.old at
        (hex_bytes bytes.now) out.new result }
{
    let Some((&first, others)) = bytes.split_first() else {
        return at;
    };
    let mut next = hex_byte(out, at, first);
    for &byte in others {
        next = crate::bytes(out, next, b" ");
        next = hex_byte(out, next, byte);
    }
    next
}

// A call's bytes, and its number in the list.
fn call(out: &mut [u8], at: usize, bytes: &[u8], number: u32) -> usize
    ensures { Appends (call_bytes (length bytes.now)) out.old at
        (call_text bytes.now number) out.new result }
{
    let shown = hex_bytes(out, at, bytes);
    let next = crate::bytes(out, shown, b" # ");
    decimal(out, next, number)
}

// The line of the plan.
pub fn plan_line(out: &mut [u8], at: usize, bytes: &[u8]) -> usize
    ensures { Appends (plan_line_bytes (length bytes.now)) out.old at
        (plan_line_text bytes.now) out.new result }
{
    let next = hex_bytes(out, at, bytes);
    crate::bytes(out, next, b"\n")
}

// The line of a kept call.
pub fn kept_line(out: &mut [u8], at: usize, bytes: &[u8], number: u32) -> usize
    ensures { Appends (kept_bytes (length bytes.now)) out.old at
        (kept_text bytes.now number) out.new result }
{
    let next = call(out, at, bytes, number);
    crate::bytes(out, next, b"\n")
}

// The line of a kept send, with how much room it said is left.
pub fn sent_line(out: &mut [u8], at: usize, bytes: &[u8], number: u32, room: u8) -> usize
    ensures { Appends (sent_bytes (length bytes.now)) out.old at
        (sent_text bytes.now number room) out.new result }
{
    let next = call(out, at, bytes, number);
    named(out, next, b" sent", &[room as u32])
}

// The line for a list that is refused with no call shown.
pub fn refused_line(out: &mut [u8], at: usize, r: Refusal) -> usize
    ensures { Appends refused_bytes out.old at
        (refused_text (refusal_number r)) out.new result }
{
    named(out, at, b"refused", &[number(r) as u32])
}

// The line of the last kept call, with its refusal.
pub fn last_line(out: &mut [u8], at: usize, bytes: &[u8], number: u32, r: Refusal) -> usize
    ensures { Appends (last_bytes (length bytes.now)) out.old at
        (last_text bytes.now number (refusal_number r)) out.new result }
{
    let shown = call(out, at, bytes, number);
    let next = crate::bytes(out, shown, b" ");
    refused_line(out, next, r)
}
