// A part made smaller: blocks of calls are left out while what is left fails as before, large blocks first, and then
// single calls, until a whole pass leaves none out. Each pass goes from the last call to the first, since a call needs
// those before it: what nothing after it needs any more can be left out in the same pass.
ghost use Rattle.std.specs.Prelude.{◌≡◌, ◌-◌, ◌≤◌, ◌<◌};
ghost use Rattle.model.specs.CallList.{first_failure};
ghost use Rattle.model.specs.Outcome.{refusal_number};
ghost use Rattle.model.specs.Reduction.{calls_at};
ghost use Rattle.reduction.specs.Parts.{kept, Held};
ghost use Rattle.reduction.specs.Replays.{ends_with};
ghost use Rattle.reduction.specs.Passes.{Failing, Tried, Passed, Found};

use crate::part::Part;
use crate::search::Search;
use crate::{part, replay};

// The largest block.
const BLOCK: u16 = 128;

// Where a block of this size begins that ends before to.
fn begins(to: u16, size: u16) -> u16
    ensures { result ≡ to - size }
{
    to.saturating_sub(size)
}

impl Search<'_> {
    // Whether a part's last call is its first refused one, with the refusal's number.
    fn fails(&self, part: Part) -> bool
        requires { Held part }
        ensures { result ≡ ends_with (first_failure self.now.topology (calls_at self.now.list.now (kept part)))
            part.count (refusal_number self.now.first.refusal) }
    {
        match replay::replay(self.topology, self.list, part).refused {
            Some(end) => end.place + 1 == part.count && end.refusal == self.first.refusal,
            None => false,
        }
    }

    // The part without a block, if that fails as the part does; else the part.
    fn try_without(&self, part: Part, from: u16, to: u16) -> Part
        requires { Failing self.now part × (from ≤ to) × (to < part.count) }
        ensures { Tried self.now part from to result }
    {
        let fewer = part::without(part, from, to);
        if self.fails(fewer) {
            return fewer;
        }
        part
    }

    // One pass over blocks of this size; the last call stays. (A `while`: a `for` over `0..(n - 1).div_ceil(size)`
    // would count the blocks only to work their ends out again. `Failing`, here and below, relates the search and a
    // part, and is no fact of either.)
    fn pass(&self, whole: Part, size: u16) -> Part
        requires { Failing self.now whole × (1 ≤ size) }
        ensures { Passed self.now whole size result }
    {
        let mut part = whole;
        let mut to = whole.count - 1;
        while 0 < to {
            let from = begins(to, size);
            part = self.try_without(part, from, to);
            to = from;
        }
        part
    }

    // Smaller and smaller blocks. (A `while`: the edit calls_that_do_not_matter, `blocks must get smaller`, needs a
    // size that could stay.)
    fn blocks(&self, whole: Part) -> Part
        requires { Failing self.now whole }
        ensures { Failing self.now result }
    {
        let mut part = whole;
        let mut size = BLOCK;
        while 1 < size {
            part = self.pass(part, size);
            size /= 2;
        }
        part
    }

    // Single calls, until a whole pass leaves none out. (A `while`: how many passes that takes isn't known.)
    fn singles(&self, whole: Part) -> Part
        requires { Failing self.now whole }
        ensures { Found self.now result }
    {
        let mut before = whole.count;
        let mut part = self.pass(whole, 1);
        while part.count < before {
            before = part.count;
            part = self.pass(part, 1);
        }
        part
    }

    // A smallest part, from the calls up to the first refused one.
    pub(crate) fn shrink(&self) -> Part
        ensures { Found self.now result }
    {
        let whole = part::first(self.first.place + 1);
        self.singles(self.blocks(whole))
    }
}
