// A channel (document 01's wire) by value: its entries, first in first out, and how much room is left. What a place's
// kind means is known here alone; `reading` fills the bodies of blank places, and `sound` looks at lengths. Open in a
// channel that is made here are its unused places, and how a marker is spelled in its place.
ghost use Rattle.std.specs.Prelude.{◌≡◌, ◌==◌, ◌+◌, ◌<◌, false, [], ◌∷◌, ◌++◌, length, drop};
ghost use Rattle.model.specs.Channel.{held, places_of, entry_of, entry_at, entries, bodies, messages};
ghost use Rattle.model.specs.Channel.{room_left, no_room_for_message, no_room_for_marker};
ghost use Rattle.model.specs.State.{no_places, empty_channel};
ghost use Rattle.rules.specs.Placing.{placed, pushed};

use model::{Channel, Entry, Places};

// The kinds of a place: a message with tag 0, one with tag 1, and a marker (document 01's note), as any other kind is.
// (No enum: a State may have any number there, and Channel.entry_of gives each a meaning.)
const PLAIN: u8 = 0;

const TAGGED: u8 = 1;

const MARKER: u8 = 2;

// How many entries a channel has room for, by the rules.
pub const ROOM: u8 = 8;

// The last place of its arrays.
const LAST_PLACE: usize = model::PLACES - 1;

// Places with nothing in them, and a channel with no entry.
#[tactic(auto, unfolding(model::specs::State::no_places))]
pub fn blank() -> Places
    ensures { result ≡ no_places }
{
    Places {
        bodies: [0; model::PLACES],
        kinds: [0; model::PLACES],
    }
}

pub fn empty() -> Channel
    ensures { result ≡ empty_channel }
{
    held(blank(), 0)
}

// The channel that places hold, of which so many are used; and a channel's places, and how many it uses. (`used` speaks
// of what a State stores, `length` of the entries: their callers need the one or the other. Arrays go by names here:
// none is moved from a field into a literal.)
pub fn held(places: Places, count: u8) -> Channel
    ensures { result ≡ held places count }
{
    let Places { bodies, kinds } = places;
    Channel {
        bodies,
        kinds,
        count,
    }
}

pub fn places(c: Channel) -> Places
    ensures { result ≡ places_of c }
{
    let Channel {
        bodies,
        kinds,
        count: _,
    } = c;
    Places { bodies, kinds }
}

pub fn used(c: Channel) -> u8
    ensures { result ≡ c.count }
{
    c.count
}

// What a place's kind and body mean.
#[tactic(auto, unfolding(model::specs::Channel::entry_of))]
fn entry_of(kind: u8, body: u32) -> Entry
    ensures { result ≡ entry_of kind body }
{
    match kind {
        PLAIN => Entry::Message { body, tag: false },
        TAGGED => Entry::Message { body, tag: true },
        _ => Entry::Marker,
    }
}

// What a place holds. One past the array reads as a message with body 0 and tag 0.
pub fn entry_at(c: Channel, i: u8) -> Entry
    ensures { result ≡ entry_at c i }
{
    let at = i as usize;
    entry_of(
        c.kinds.get(at).copied().unwrap_or(PLAIN),
        c.bodies.get(at).copied().unwrap_or(0),
    )
}

// How many entries a channel holds.
#[tactic(auto, using(model::proofs::laws::ChannelLaws::entries_count))]
pub fn length(c: Channel) -> u8
    ensures { result ≡ length (entries c) }
{
    c.count
}

// How many entries a channel can still hold.
#[tactic(auto, using(model::proofs::laws::ChannelLaws::entries_count))]
pub fn room(c: Channel) -> u8
    ensures { result ≡ room_left (entries c) }
{
    ROOM.saturating_sub(c.count)
}

// Whether there is no room for one more entry, whatever it is.
fn is_full(c: Channel) -> bool
    ensures { result ≡ (room_left (entries c) == 0) }
{
    room(c) == 0
}

// Refusal 9: whether there is no room for one more message, and whether there is none for a marker. (Two functions, as
// no_room_for_message and no_room_for_marker are two definitions, which a later paper may set apart.)
#[tactic(auto, unfolding(model::specs::Channel::no_room_for_message))]
pub fn no_room_for_message(c: Channel) -> bool
    ensures { result ≡ no_room_for_message (entries c) }
{
    is_full(c)
}

#[tactic(auto, unfolding(model::specs::Channel::no_room_for_marker))]
pub fn no_room_for_marker(c: Channel) -> bool
    ensures { result ≡ no_room_for_marker (entries c) }
{
    is_full(c)
}

// The channel with one place more in use, of this kind and body. One past the arrays can't be written to, and reads as
// it always does.
#[tactic(auto, using(crate::proofs::Putting::put_within, crate::proofs::Putting::put_past))]
fn extend(c: Channel, kind: u8, body: u32) -> Channel
    requires { c.count < 255 }
    ensures { (entries result ≡ entries c ++ (placed c.count kind body ∷ [])) × (result.count ≡ c.count + 1) }
{
    let at = c.count as usize;
    // (`..c`, and `..empty()` in pop, were measured to be slower.)
    let mut r = c;
    r.count = c.count + 1;
    if at < model::PLACES {
        r.kinds[at] = kind;
        r.bodies[at] = body;
    }
    r
}

// The channel with an entry after its others; as it is, where its arrays have no place left.
pub fn push(c: Channel, e: Entry) -> Channel
    ensures { entries result ≡ pushed (entries c) e }
{
    if LAST_PLACE < c.count as usize {
        return c;
    }
    match e {
        Entry::Message { body, tag: true } => extend(c, TAGGED, body),
        Entry::Message { body, tag: false } => extend(c, PLAIN, body),
        Entry::Marker => extend(c, MARKER, 0),
    }
}

// The channel without its first entry; as it is, where it has none.
pub fn pop(c: Channel) -> Channel
    ensures { entries result ≡ drop 1 (entries c) }
{
    if c.count == 0 {
        return c;
    }
    let mut r = empty();
    r.count = c.count - 1;
    for i in 0..LAST_PLACE {
        r.kinds[i] = c.kinds[i + 1];
        r.bodies[i] = c.bodies[i + 1];
    }
    r
}

// The channel's messages alone, in order and with tag 0.
pub fn plain(c: Channel) -> Channel
    ensures { entries result ≡ messages false (bodies (entries c)) }
{
    let mut r = empty();
    for i in 0..c.count {
        if let Entry::Message { body, tag: _ } = entry_at(c, i) {
            r = extend(r, PLAIN, body);
        }
    }
    r
}
