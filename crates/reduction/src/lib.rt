// The part of a list of calls that matters (document 02, M-100). The field's terms: delta debugging, and a 1-minimal
// part that still fails.
#![tactic(auto)]

mod part;
mod replay;
mod search;
mod shrink;

ghost use Rattle.reduction.specs.Reduces.{Reduces};

use crate::search::Search;
use model::{LISTED, Record, Refusal, Topology};
pub use part::{Part, nth_call};

// What is found: the place of the list's first refused call, counted from 0, and its refusal; a smallest part that
// fails so; and how much room each call of the part said is left: 0 for one that is no send, for the last one, and in
// the places after. (Two arrays side by side, with no heap, as `Reduces` says of each.)
#[derive(Clone, Copy)]
pub struct Reduced {
    pub place: u16,
    pub refusal: Refusal,
    pub part: Part,
    pub rooms: [u8; LISTED],
}

// Of any topology and any list, however long.
pub fn reduce(topology: Topology, list: &[Record]) -> Result<Reduced, Refusal>
    ensures { Reduces topology list.now result }
{
    if LISTED < list.len() {
        return Err(Refusal::LongList);
    }
    rules::topology::check(topology)?;
    let all = part::first(list.len() as u16);
    let Some(first) = replay::replay(topology, list, all).refused else {
        return Err(Refusal::NothingRefused);
    };
    let search = Search {
        topology,
        list,
        first,
    };
    let part = search.shrink();
    let rooms = replay::replay(topology, list, part).rooms;
    Ok(Reduced {
        place: first.place,
        refusal: first.refusal,
        part,
        rooms,
    })
}
