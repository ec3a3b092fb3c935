// What turns a restart of a store down, by the rules of its form.
ghost use Rattle.std.specs.Prelude.{◌≡◌, length};
ghost use Rattle.std.proofs.Math.Option.{none};
ghost use Rattle.model.specs.Outcome.{refusal_of};
ghost use Rattle.model.specs.Recover.{initialize_refusal, counts_fit, recover_refusal};
ghost use Rattle.reading.specs.Source.{form_of, length_refusal};

use crate::form::Form;
use model::{Refusal, Topology};
use rules::{cells, layout, topology};

// Refusal 6, where a store of so many cells is too short.
#[tactic(auto, unfolding(model::specs::Outcome::refusal_of, model::specs::Check::first_refusal))]
pub fn long_enough(form: Form, cells: usize) -> Result<(), Refusal>
    ensures { refusal_of result ≡ length_refusal (form_of form) cells }
{
    if cells < form.store_cells() {
        return Err(Refusal::ShortStore);
    }
    Ok(())
}

// Refusals 1 to 5 and 19, then 6, of a store of so many cells.
pub fn admit_cells(topology: Topology, form: Form, cells: usize) -> Result<(), Refusal>
    ensures { refusal_of result ≡ initialize_refusal (form_of form) topology cells }
{
    topology::check(topology)?;
    long_enough(form, cells)
}

// Whether the logs of the store's line are within their places.
fn counts_fit(topology: Topology, form: Form, store: &[u32]) -> bool
    requires { initialize_refusal (form_of form) topology (length store.now) ≡ none }
    ensures { result ≡ counts_fit (form_of form) topology store.now }
{
    let line = store[layout::LINE_CELL];
    let messages = form.physical_cell(line, 0) + 1;
    if !cells::at_most(
        store,
        messages as u32,
        form.process_cells() as u32,
        topology.processes,
        layout::MESSAGE_PLACES,
    ) {
        return false;
    }
    let channels = form.channel_count_cell(line, 0);
    cells::at_most(
        store,
        channels as u32,
        layout::CHANNEL_CELLS as u32,
        topology.channels,
        layout::CHANNEL_PLACES,
    )
}

// Refusals 1 to 5 and 19, then 6, then 16.
#[tactic(auto, unfolding(model::specs::Outcome::refusal_of))]
pub fn admit_store(topology: Topology, form: Form, store: &[u32]) -> Result<(), Refusal>
    ensures { refusal_of result ≡ recover_refusal (form_of form) topology store.now }
{
    admit_cells(topology, form, store.len())?;
    if !counts_fit(topology, form, store) {
        return Err(Refusal::BadCount);
    }
    Ok(())
}
