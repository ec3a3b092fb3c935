// A whole session on a lent store, from the input's plan to the last line.
ghost use Rattle.std.specs.Prelude.{◌≤◌, length};
ghost use Rattle.model.specs.Layout.{store_cells};
ghost use Rattle.model.specs.Program.{played};
ghost use Rattle.session.specs.Output.{MayRun, Plays, plan_played};
ghost use Rattle.session.specs.RequestRead.{source_of};

use crate::request::BudgetSource;
use crate::serve;
use model::Topology;

// With a plan that passed its checks, and the bytes after it. Initialize isn't refused then (`starts` of
// proofs/Opening.antt).
fn run(
    source: BudgetSource,
    topology: Topology,
    records: &[u8],
    store: &mut [u32],
    out: &mut [u8],
) -> usize
    requires { MayRun topology records.now store.old }
    ensures { Plays (plan_played (source_of source) topology store.old records.now)
        out.old out.new result store.new }
{
    let state = engine::initialize(topology, store).unwrap();
    let cursor = serve::requests(source, topology, state, records, store, out);
    report::ending::print(topology, cursor.state, out, cursor.at)
}

pub fn play(source: BudgetSource, input: &[u8], store: &mut [u32], out: &mut [u8]) -> usize
    requires { store_cells ≤ length store.old }
    ensures { Plays (played (source_of source) store.old input.now)
        out.old out.new result store.new }
{
    let bytes = plan::taken(input);
    match plan::read(bytes) {
        Ok(topology) => run(source, topology, plan::rest(bytes), store, out),
        Err(refusal) => report::plan_refused(out, 0, refusal),
    }
}
