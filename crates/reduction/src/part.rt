// A part of a list of calls: the places of its calls.
ghost use Rattle.std.specs.Prelude.{◌≡◌, ◌+◌, ◌≤◌, get_or};
ghost use Rattle.model.specs.declared.Record.TheVariants.{Recover};
ghost use Rattle.model.specs.Notation.{tabulate};
ghost use Rattle.model.specs.CallList.{list_limit};
ghost use Rattle.reduction.specs.Parts.{kept, part_of, Held, without_block, past};

use model::{LISTED, Record};

// The places of its calls in the list, and how many they are; 0 in the places after them. (No Vec: memory is fixed. And
// no ghost field for `Held`: the promise of `reduce` says it, and its theorem `only_the_part` speaks of any part.)
#[derive(Clone, Copy)]
pub struct Part {
    pub places: [u8; LISTED],
    pub count: u16,
}

// The call at a place of a list. (No part that is found has a place past the list's end, where this is a recover.)
pub fn nth_call(list: &[Record], place: u8) -> Record
    ensures { result ≡ get_or list.now place Recover }
{
    list.get(place as usize).copied().unwrap_or(Record::Recover)
}

// The first n calls of a list.
pub fn first(n: u16) -> Part
    requires { n ≤ list_limit }
    ensures { result ≡ part_of (tabulate n (λ i. i)) }
{
    let mut places = [0; LISTED];
    for i in 0..n {
        places[i as usize] = i as u8;
    }
    Part { places, count: n }
}

// Where the i-th place is found, past a gap that begins at from.
fn past(from: u16, gap: u16, i: u16) -> u16
    requires { i + gap ≤ list_limit }
    ensures { result ≡ past from gap i }
{
    if i < from { i } else { i + gap }
}

// A part without its calls from the place from to before the place to.
pub fn without(part: Part, from: u16, to: u16) -> Part
    requires { (from ≤ to) × (to ≤ part.count) × Held part }
    ensures { result ≡ part_of (without_block from to (kept part)) }
{
    let gap = to - from;
    let count = part.count - gap;
    let mut places = [0; LISTED];
    for i in 0..count {
        places[i as usize] = part.places[past(from, gap, i) as usize];
    }
    Part { places, count }
}
