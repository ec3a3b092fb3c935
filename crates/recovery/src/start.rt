// Recover, document 01's restart; and what initialize, its setup, has in common with it: refusals 1 to 5, 19 and 6,
// and the first state.
ghost use Rattle.std.specs.Prelude.{◌≡◌, []};
ghost use Rattle.std.proofs.Math.Option.{none};
ghost use Rattle.model.specs.Outcome.{refusal_of};
ghost use Rattle.model.specs.State.{view, idle_state};
ghost use Rattle.model.specs.Start.{initialize_refusal, recover, recover_refusal, recovered_word, recovered_channel};
ghost use Rattle.recovery.specs.Starts.{Starts, words_seen, channels_seen};

use model::{CHANNELS, PROCESSES, Phase, Places, Refusal, Round, State, Topology};
use reading::form::Form;
use rules::{channel, fresh, late};

// The channels of a state, filled: their places, and how many of each are used, in two arrays as State has them, since
// every step looks through the lengths.
#[derive(Clone, Copy)]
struct Filled {
    places: [Places; CHANNELS],
    lengths: [u8; CHANNELS],
}

// An idle state at a line: no progress, no log counts, tags 0.
fn idle(topology: Topology, line: u32, words: [u32; PROCESSES], filled: Filled) -> State
    ensures { view result ≡ idle_state topology line (words_seen words) (channels_seen filled) }
{
    // (by names: an array isn't moved from a field into a literal)
    let Filled { places, lengths } = filled;
    State {
        topology,
        round: Round {
            line,
            phase: Phase::Idle,
        },
        words,
        tags: [false; PROCESSES],
        places,
        lengths,
        flags: fresh::flags(),
        counts: fresh::counts(),
    }
}

// The idle state at line 0, with words 0 and empty channels.
pub fn initial(topology: Topology) -> State
    ensures { view result ≡ idle_state topology 0 (λ p. 0) (λ c. []) }
{
    let filled = Filled {
        places: [channel::blank(); CHANNELS],
        lengths: [0; CHANNELS],
    };
    idle(topology, 0, [0; PROCESSES], filled)
}

// Refusals 1 to 5 and 19, then 6.
pub fn admit(topology: Topology, cells: usize) -> Result<(), Refusal>
    ensures { refusal_of result ≡ initialize_refusal topology cells }
{
    reading::admit_cells(topology, Form::Present, cells)
}

// The words, by replaying the message logs on the physical checkpoints, and undoing those of late processes.
fn words(topology: Topology, store: &[u32]) -> [u32; PROCESSES]
    requires { recover_refusal topology store.now ≡ none }
    ensures { words_seen result ≡ recovered_word topology store.now }
{
    let mut words = [0; PROCESSES];
    for p in 0..topology.processes {
        let late = late::is_late(topology.late, p);
        words[p as usize] = reading::word(Form::Present, store, p, late);
    }
    words
}

// The channels, filled from their logs. No place past a channel's length is seen, so that the array isn't cleared: it
// begins as the first channel's places, as often as there are channels.
fn channels(topology: Topology, store: &[u32]) -> Filled
    requires { recover_refusal topology store.now ≡ none }
    ensures { channels_seen result ≡ recovered_channel topology store.now }
{
    let first = channel::places(reading::channel(Form::Present, store, 0));
    let mut places = [first; CHANNELS];
    let mut lengths = [0; CHANNELS];
    for c in 0..topology.channels {
        let held = reading::channel(Form::Present, store, c);
        places[c as usize] = channel::places(held);
        lengths[c as usize] = channel::used(held);
    }
    Filled { places, lengths }
}

// Document 01's restart: it only reads. Of any topology and any store.
pub fn recover(topology: Topology, store: &[u32]) -> Result<State, Refusal>
    ensures { Starts (recover topology store.now) result store.now }
{
    reading::admit_store(topology, Form::Present, store)?;
    let words = words(topology, store);
    let filled = channels(topology, store);
    Ok(idle(topology, reading::line(store), words, filled))
}
