// The list of calls in the bytes after a plan.
ghost use Rattle.std.specs.Prelude.{◌≡◌, ◌+◌, ◌∷◌, [], ◌++◌, ◌≤◌, take};
ghost use Rattle.model.specs.CallList.{list_limit};
ghost use Rattle.operator.specs.Lists.{held, ReadsList};

use model::{LISTED, Record, Refusal};

// One more than a list can have, so that it shows of a longer one that it is.
const PLACES: usize = LISTED + 1;

// The list that bytes hold, as far as there are places: so many calls. (An array with a count, since memory is fixed.)
// And whether the bytes after its calls end, or aren't a record. (No Result of all: question 4 answers the calls before
// the break too.)
#[derive(Clone, Copy)]
pub struct ListRead {
    pub calls: [Record; PLACES],
    pub count: usize,
    pub end: Result<(), Refusal>,
}

// One more call, if there is a place for it.
fn add(list: &mut ListRead, call: Record)
    requires { list.old.count ≤ list_limit + 1 }
    ensures held { held list.new ≡ take (list_limit + 1) (held list.old ++ (call ∷ [])) }
    ensures within { list.new.count ≤ list_limit + 1 }
    ensures end { list.new.end ≡ list.old.end }
{
    if list.count < PLACES {
        list.calls[list.count] = call;
        list.count += 1;
    }
}

// All records that the bytes hold, in order. A 7 ends the reading, and so does the end of the bytes. (A `while`: how
// many records there are isn't known. No `match`: a reading is taken apart with `let .. else`, as in `session`.)
pub fn read(bytes: &[u8]) -> ListRead
    ensures { ReadsList bytes.now result }
{
    let mut list = ListRead {
        calls: [Record::Recover; PLACES],
        count: 0,
        end: Ok(()),
    };
    let mut left = bytes;
    while !left.is_empty() {
        let Ok(call) = record::read(left) else {
            list.end = Err(Refusal::Malformed);
            break;
        };
        add(&mut list, call);
        left = record::rest(left);
    }
    list
}
