// What there is before anything is planned or done: a topology of nothing, and the flags and counts of a round that has
// done nothing yet.
ghost use Rattle.std.specs.Prelude.{◌≡◌};
ghost use Rattle.model.specs.State.{blank_topology, view_progress, view_counts, no_progress, no_counts};

use model::{CHANNELS, Counts, Flags, PROCESSES, Topology};

// No process, no channel: a topology of nothing.
#[tactic(auto, unfolding(model::specs::State::blank_topology))]
pub fn topology() -> Topology
    ensures { result ≡ blank_topology }
{
    Topology {
        processes: 0,
        channels: 0,
        from: [0; CHANNELS],
        to: [0; CHANNELS],
        late: 0,
    }
}

// No process has its logical checkpoint, no late one its physical one, no channel is closed, no marker was sent.
pub fn flags() -> Flags
    ensures { view_progress result ≡ no_progress }
{
    Flags {
        logical: [false; PROCESSES],
        saved: [false; PROCESSES],
        closed: [false; CHANNELS],
        sent: [false; CHANNELS],
    }
}

// Every log is empty.
pub fn counts() -> Counts
    ensures { view_counts result ≡ no_counts }
{
    Counts {
        messages: [0; PROCESSES],
        channels: [0; CHANNELS],
    }
}
