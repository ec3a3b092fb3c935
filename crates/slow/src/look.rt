// A place of an array of a state or topology, whatever the index: past the array it reads as one of a state that has
// nothing.
ghost use Rattle.std.specs.Prelude.{◌≡◌, get_or};
ghost use Rattle.model.specs.Notation.{bit_of};
ghost use Rattle.model.specs.Channel.{entry_of};
ghost use Rattle.model.specs.State.{entries_in};
ghost use Rattle.account.specs.Judging.{first_of};

use model::{CHANNELS, Entry, PLACES, PROCESSES, Places};

// The item at a place of a list, and past the list this blank.
pub fn at<T: Copy>(items: &[T], i: u8, blank: T) -> T
    ensures { result ≡ get_or items.now i blank }
{
    items.get(i as usize).copied().unwrap_or(blank)
}

// Whether process p is late, by a topology's map.
#[tactic(auto, unfolding(model::specs::Notation::bit_of))]
pub fn late(map: u16, p: u8) -> bool
    ensures { result ≡ bit_of map p }
{
    (p as usize) < PROCESSES && (map >> p) % 2 == 1
}

// What a kind and a body mean: kind 0 and 1 a message with that tag, any other kind a marker. (As `rules::channel` has
// it, for the reason of lib.rt; the kinds stay numbers, of which a state may hold any.)
#[tactic(auto, unfolding(model::specs::Channel::entry_of))]
fn entry(kind: u8, body: u32) -> Entry
    ensures { result ≡ entry_of kind body }
{
    match kind {
        0 => Entry::Message { body, tag: false },
        1 => Entry::Message { body, tag: true },
        _ => Entry::Marker,
    }
}

// The first entry of a channel; where it has none, a message of nothing.
pub fn first(places: [Places; CHANNELS], lengths: [u8; CHANNELS], c: u8) -> Entry
    ensures { result ≡ first_of (entries_in places lengths c) }
{
    if at(&lengths, c, 0) == 0 {
        return entry(0, 0);
    }
    let nothing = Places {
        bodies: [0; PLACES],
        kinds: [0; PLACES],
    };
    let held = at(&places, c, nothing);
    entry(held.kinds[0], held.bodies[0])
}
