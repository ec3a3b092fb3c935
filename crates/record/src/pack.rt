// The bytes of a record: the bit map, the kind, and the fields that are not 0. No kind uses both process and channel.
// (Kinds stay numbers, and the fields apart, as in kind.rt.)
#![tactic(auto, unfolding(model::specs::Record::write_fields, model::specs::Record::map_of, model::specs::Record::bit, model::specs::Record::absent, model::specs::Record::body_bytes, model::specs::Record::field_bytes, crate::specs::Written::holding,),)]

ghost use Rattle.std.specs.Prelude.{◌≡◌};
ghost use Rattle.model.specs.Record.{write_fields};
ghost use Rattle.record.specs.Kind.{fields};
ghost use Rattle.record.specs.Written.{holding};

use crate::field::{BODY, CHANNEL, KIND, PROCESS, word_bytes};
use crate::{LONGEST, Written};

// With a channel and a body.
pub fn with_channel(kind: u8, channel: u8, body: u32) -> Written
    ensures { result ≡ holding (write_fields (fields kind 0 channel body)) }
{
    let [a, b, c, d] = word_bytes(body);
    match (channel, body) {
        (0, 0) => with_process(kind, 0),
        (0, _) => Written {
            bytes: [KIND + BODY, kind, a, b, c, d, 0],
            count: 6,
        },
        (_, 0) => Written {
            bytes: [KIND + CHANNEL, kind, channel, 0, 0, 0, 0],
            count: 3,
        },
        (_, _) => Written {
            bytes: [KIND + CHANNEL + BODY, kind, channel, a, b, c, d],
            count: LONGEST,
        },
    }
}

// With a process.
pub fn with_process(kind: u8, process: u8) -> Written
    ensures { result ≡ holding (write_fields (fields kind process 0 0)) }
{
    if process == 0 {
        return Written {
            bytes: [KIND, kind, 0, 0, 0, 0, 0],
            count: 2,
        };
    }
    Written {
        bytes: [KIND + PROCESS, kind, process, 0, 0, 0, 0],
        count: 3,
    }
}
