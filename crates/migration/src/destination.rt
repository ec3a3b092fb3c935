// What is written into a target: the line that the source stands at, in the target's form.
ghost use Rattle.std.specs.Prelude.{◌≡◌};
ghost use Rattle.model.specs.Write.{write_all};
ghost use Rattle.migration.specs.Carry.{processes_writes, bodies_writes, channels_writes, carry_writes};
ghost use Rattle.migration.specs.Source.{Admitted, Copyable};
ghost use Rattle.reading.specs.Source.{form_of, bodies_at};

use model::Topology;
use reading::form::Form;
use rules::{late, layout};

// The channel log whose count stands in the source's cell from, into the target's cells from to on.
#[tactic(auto, unfolding(model::specs::Form::cell))]
fn copy(source: &[u32], from: usize, target: &mut [u32], to: usize)
    requires { Copyable source.now from target.old to }
    ensures { target.new ≡ write_all target.old
        (bodies_writes to (bodies_at source.now from)) }
{
    // (by copy_from_slice, tried, a carry took more instructions: it asks each time whether the two overlap)
    let n = source[from] as usize;
    for i in 0..n {
        target[to + 1 + i] = source[from + 1 + i];
    }
    target[to] = n as u32;
}

// How a store is carried: its topology, its form, and the target's. (What its methods require, `Admitted`, relates it
// to two stores that are lent, so that it can't be a fact of its type.)
#[derive(Clone, Copy)]
pub struct Carriage {
    pub topology: Topology,
    pub from: Form,
    pub to: Form,
}

impl Carriage {
    // The words as physical checkpoints, with empty message logs.
    fn processes(self, source: &[u32], target: &mut [u32])
        requires { Admitted self.topology self.from source.now self.to target.old }
        ensures { target.new ≡ write_all target.old
            (processes_writes (form_of self.from) (form_of self.to) self.topology source.now) }
    {
        let line = source[layout::LINE_CELL];
        for p in 0..self.topology.processes {
            let at = self.to.physical_cell(line, p);
            let late = late::is_late(self.topology.late, p);
            target[at] = reading::word(self.from, source, p, late);
            target[at + 1] = 0;
        }
    }

    // The channel logs as they are.
    fn channels(self, source: &[u32], target: &mut [u32])
        requires { Admitted self.topology self.from source.now self.to target.old }
        ensures { target.new ≡ write_all target.old
            (channels_writes (form_of self.from) (form_of self.to) self.topology source.now) }
    {
        let line = source[layout::LINE_CELL];
        for c in 0..self.topology.channels {
            let at = self.from.channel_count_cell(line, c);
            copy(source, at, target, self.to.channel_count_cell(line, c));
        }
    }

    // All of it, the line cell last.
    pub(crate) fn write(self, source: &[u32], target: &mut [u32])
        requires { Admitted self.topology self.from source.now self.to target.old }
        ensures { target.new ≡ write_all target.old
            (carry_writes (form_of self.from) (form_of self.to) self.topology source.now) }
    {
        self.processes(source, target);
        self.channels(source, target);
        target[layout::LINE_CELL] = source[layout::LINE_CELL];
    }
}
