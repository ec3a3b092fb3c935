// The soundness of a state: one that is not sound is refused with 15.
ghost use Rattle.std.specs.Prelude.{◌≡◌, ◌≤◌, length, nat_le, slice_index};
ghost use Rattle.model.specs.Notation.{all_below};
ghost use Rattle.model.specs.State.{view};
ghost use Rattle.model.specs.Sound.{phase_sound, line_sound, sound};

use crate::{below, channel, late, layout, phase, topology};
use model::{Phase, Round, State, Topology};

// Whether each of the first n counts is at most the limit: the lengths of the topology's channels, the logs of its
// processes, or those of its channels.
fn at_most(counts: &[u8], n: u8, limit: u8) -> bool
    requires { n ≤ length counts.now }
    ensures { result ≡ all_below n (λ i. nat_le (slice_index counts.now i) limit) }
{
    below::all(n, |i| counts[i] <= limit)
}

// Whether the next process to have its physical checkpoint, if any, is in the topology and isn't late.
#[tactic(auto, using(crate::proofs::Checks::next_sound), unfolding(model::specs::Sound::phase_sound))]
fn phase_sound(t: Topology, phase: Phase) -> bool
    ensures { result ≡ phase_sound t phase }
{
    match phase {
        Phase::Idle => true,
        Phase::Physical(next) => (next < t.processes) & !late::is_late(t.late, next),
        Phase::Logical => true,
    }
}

// Whether the round is idle if its line is the last.
#[tactic(auto, unfolding(model::specs::Sound::line_sound))]
fn line_sound(round: Round) -> bool
    ensures { result ≡ line_sound round }
{
    phase::is_idle(round.phase) || round.line != phase::LAST_LINE
}

// Whether a state, any whatever, is sound: each clause of the definition by itself, and no loop of them left early.
pub fn sound(s: State) -> bool
    ensures { result ≡ sound (view s) }
{
    let t = s.topology;
    if !topology::passes(t) {
        return false;
    }
    // (Where a field of s itself is lent, the compiler was measured to copy all of s first.)
    let lengths = s.lengths;
    let counts = s.counts;
    let channels = at_most(&lengths, t.channels, channel::ROOM);
    let messages = at_most(&counts.messages, t.processes, layout::MESSAGE_PLACES);
    let logs = at_most(&counts.channels, t.channels, layout::CHANNEL_PLACES);
    channels & messages & logs & phase_sound(t, s.round.phase) & line_sound(s.round)
}
