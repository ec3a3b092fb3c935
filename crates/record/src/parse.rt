// One reading of the bytes: the record, and the bytes after it.
ghost use Rattle.std.specs.Prelude.{◌≡◌};
ghost use Rattle.model.specs.Record.{good_map, read_record, stands};
ghost use Rattle.record.specs.Reads.{reading_of};

use crate::field::{BODY, CHANNEL, MAPS, PROCESS};
use crate::{field, kind};
use model::Record;

// Bit 0 of a map stands, bits 4 to 7 don't.
#[tactic(auto, unfolding(model::specs::Record::good_map, model::specs::Record::stands))]
fn good_map(map: u8) -> bool
    ensures { result ≡ good_map map }
{
    map % 2 == 1 && map < MAPS
}

// The record that the bytes begin with, and the bytes after it: its map, its kind, its fields one after the other.
#[tactic(auto, using(crate::proofs::ParseLaws::parsing))]
pub fn parse(bytes: &[u8]) -> Option<(Record, &[u8])>
    ensures { reading_of result ≡ read_record bytes.now }
{
    let [map, kind, rest @ ..] = bytes else {
        return None;
    };
    if !good_map(*map) {
        return None;
    }
    let (process, rest) = field::byte(rest, *map / PROCESS % 2 == 1)?;
    let (channel, rest) = field::byte(rest, *map / CHANNEL % 2 == 1)?;
    let (body, rest) = field::body(rest, *map / BODY % 2 == 1)?;
    let record = kind::record_of(*kind, process, channel, body)?;
    Some((record, rest))
}
