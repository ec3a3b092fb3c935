// What changes the histories: an event that enters, a mark, and what the round makes of all of them. (That a process's
// number is below 16 is asked of it, here and where histories are read: it is the u8 of a plan's end.)
ghost use Rattle.std.specs.Prelude.{◌<◌, get_or, ◌≡◌};
ghost use Rattle.model.specs.History.{add_event, is_after, mark_now, no_marks, on_commit, on_recover};
ghost use Rattle.slow.specs.Seen.{Becomes, Starts, Finished, event_of, mark_of, mark_if, has_mark_in};

use crate::events::Histories;
use crate::look;
use model::{LISTED, PROCESSES};

// Empty histories, every process's place in the line at its start, no mark.
pub fn first() -> Histories
    ensures { Starts result }
{
    Histories {
        entries: [[0; LISTED]; PROCESSES],
        counts: [0; PROCESSES],
        lines: [0; PROCESSES],
        marks: [None; PROCESSES],
    }
}

// Whether process p has a mark of this round.
pub fn marked(histories: Histories, p: u8) -> bool
    requires { p < 16 }
    ensures { result ≡ has_mark_in histories p }
{
    look::at(&histories.marks, p, None).is_some()
}

// Whether place k of a history stands after this mark.
#[tactic(auto, unfolding(model::specs::History::is_after))]
pub fn is_after(mark: Option<u16>, k: u16) -> bool
    ensures { result ≡ is_after (mark_of mark) k }
{
    mark.is_some_and(|m| m <= k)
}

// Deed i enters process p's history.
pub fn add(mut histories: Histories, p: u8, i: u8) -> Histories
    requires { (p < 16) × (get_or histories.counts p 0 < 256) }
    ensures { Becomes histories (λ f h. add_event p (event_of (f i)) h) result }
{
    let q = p as usize;
    let count = histories.counts[q];
    histories.entries[q][count as usize] = i;
    histories.counts[q] = count + 1;
    histories
}

// Process p is marked.
pub fn mark(mut histories: Histories, p: u8) -> Histories
    requires { p < 16 }
    ensures { Becomes histories (λ f h. mark_now p h) result × (result.counts ≡ histories.counts) }
{
    let q = p as usize;
    histories.marks[q] = Some(histories.counts[q]);
    histories
}

// Process p is marked, if it is to be and has no mark. (A flag, as `mark_if` of specs/Seen has it.)
pub fn mark_unmarked(histories: Histories, p: u8, yes: bool) -> Histories
    requires { p < 16 }
    ensures { Becomes histories (λ f h. mark_if yes p h) result × (result.counts ≡ histories.counts) }
{
    if !yes || marked(histories, p) {
        return histories;
    }
    mark(histories, p)
}

// The round has no marks.
pub fn forget(mut histories: Histories) -> Histories
    ensures { Becomes histories (λ f h. no_marks h) result }
{
    histories.marks = [None; PROCESSES];
    histories
}

// The line of these marks: a process's mark, or its place in the line before where it has none.
fn line_of(lines: [u16; PROCESSES], marks: [Option<u16>; PROCESSES]) -> [u16; PROCESSES]
    ensures { Finished lines marks result }
{
    let mut next = [0; PROCESSES];
    for p in 0..PROCESSES {
        next[p] = marks[p].unwrap_or(lines[p]);
    }
    next
}

// The round's marks become the last finished line, and the round has none.
pub fn commit(mut histories: Histories) -> Histories
    ensures { Becomes histories (λ f h. on_commit h) result }
{
    histories.lines = line_of(histories.lines, histories.marks);
    histories.marks = [None; PROCESSES];
    histories
}

// Every history is shortened to its mark in the last finished line, and the round has no marks.
pub fn recover(mut histories: Histories) -> Histories
    ensures { Becomes histories (λ f h. on_recover h) result }
{
    // A name for the lines, since no proof is made where a field is given another's array straight.
    // (by name: an array isn't moved from one field to another as it stands)
    let lines = histories.lines;
    histories.counts = lines;
    histories.marks = [None; PROCESSES];
    histories
}
