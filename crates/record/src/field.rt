// The fields of a record: the weights of their bits in the map, and the reading of one field.
#![tactic(auto, unfolding(model::specs::Record::read_field, model::specs::Record::and_then, model::specs::Record::nonzero, model::specs::Record::absent, model::specs::Record::read_byte, model::specs::Record::read_body, model::specs::Record::body_bytes,),)]

ghost use Rattle.std.specs.Prelude.{◌≡◌};
ghost use Rattle.model.specs.Record.{lowest_first, body_bytes, read_byte, read_body, read_field};
ghost use Rattle.record.specs.Reads.{reading_of};

pub const KIND: u8 = 1;

pub const PROCESS: u8 = 2;

pub const CHANNEL: u8 = 4;

pub const BODY: u8 = 8;

// Bit maps are below this: the bits after these never stand.
pub const MAPS: u8 = 2 * BODY;

// The process or the channel, and the bytes after it. A present field may not be 0. (`body` isn't the same function for
// another size: that would be a loop over the bytes, for a fact that the definitions have for 1 byte and for 4.
// `present` is a flag, as `read_field` of the definitions has it.)
pub fn byte(bytes: &[u8], present: bool) -> Option<(u8, &[u8])>
    ensures { reading_of result ≡ read_field present read_byte bytes.now }
{
    if !present {
        return Some((0, bytes));
    }
    let [value, rest @ ..] = bytes else {
        return None;
    };
    (*value != 0).then_some((*value, rest))
}

// 4 bytes, lowest first.
pub fn word(a: u8, b: u8, c: u8, d: u8) -> u32
    ensures { result ≡ lowest_first a b c d }
{
    u32::from_le_bytes([a, b, c, d])
}

// Its bytes.
pub fn word_bytes(word: u32) -> [u8; 4]
    ensures { result ≡ body_bytes word }
{
    word.to_le_bytes()
}

// The body, and the bytes after it.
pub fn body(bytes: &[u8], present: bool) -> Option<(u32, &[u8])>
    ensures { reading_of result ≡ read_field present read_body bytes.now }
{
    if !present {
        return Some((0, bytes));
    }
    let [a, b, c, d, rest @ ..] = bytes else {
        return None;
    };
    let value = word(*a, *b, *c, *d);
    (value != 0).then_some((value, rest))
}
