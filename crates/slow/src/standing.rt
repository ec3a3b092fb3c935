// The state that the past tells: of the processes, of the channels, and whole. (`Ready`, which is required here and
// there, relates a topology and a past, and is no fact of either.)
ghost use Rattle.std.specs.Prelude.{◌≡◌, ◌<◌, ◌≤◌, ℕ, get_or};
ghost use Rattle.model.specs.Channel.{entries, places_of};
ghost use Rattle.model.specs.State.{view, view_progress, view_counts};
ghost use Rattle.account.specs.Contents.{history_of, channel_by};
ghost use Rattle.account.specs.Round.{turned};
ghost use Rattle.account.specs.Standing.{state_of};
ghost use Rattle.slow.specs.Kept.{past_of};
ghost use Rattle.slow.specs.Seen.{FedBy};
ghost use Rattle.slow.specs.Parts.{Ready};

use crate::deeds::Past;
use crate::events::Histories;
use crate::{contents, feed, histories, look, round, told};
use model::{CHANNELS, Channel, Counts, Flags, PROCESSES, Places, Round, State, Topology};

// The cells with what f tells of each of the first n in them.
fn table<T: Copy, const N: usize, F: Fn(u8) -> T>(mut cells: [T; N], n: u8, f: F) -> [T; N]
    requires room { n ≤ N }
    requires may { (i : ℕ) → i < n → F.pre f i }
    ensures told { (z : T) (i : ℕ) → i < n → F.post f i (get_or result i z) }
    ensures other { (z : T) (i : ℕ) → n ≤ i → get_or result i z ≡ get_or cells i z }
{
    for i in 0..n {
        cells[i as usize] = f(i);
    }
    cells
}

// What is under way on channel c, with its marker, which the flags tell: t is the tag of processes without a mark.
#[tactic(auto, using(crate::proofs::Feeding::ends_fit, crate::proofs::Standings::channel_is))]
fn held(
    topology: Topology,
    past: &Past,
    histories: &Histories,
    flags: &Flags,
    t: bool,
    c: u8,
) -> Channel
    requires ready { Ready topology past.now }
    requires fed { FedBy topology past.now histories.now }
    requires flags { view_progress flags.now ≡ (state_of topology (past_of past.now)).progress }
    requires tag { t ≡ turned (past_of past.now) }
    requires planned { c < topology.channels }
    ensures { entries result
        ≡ channel_by topology (past_of past.now) (history_of topology (past_of past.now)) c }
{
    let sent = look::at(&flags.sent, c, false);
    let closed = look::at(&flags.closed, c, false);
    contents::channel(topology, *past, *histories, t, sent & !closed, c)
}

// (By names: an array isn't moved from a field into a literal.)
fn places(held: Channel) -> Places
    ensures { result ≡ places_of held }
{
    let (bodies, kinds) = (held.bodies, held.kinds);
    Places { bodies, kinds }
}

// Who has a mark and, being late, a copy; which channels are closed, and on which the marker was sent.
#[tactic(auto, using(model::proofs::laws::TopologyLaws::accepted_sizes))]
fn flags(topology: Topology, past: Past, histories: Histories) -> Flags
    requires ready { Ready topology past }
    requires fed { FedBy topology past histories }
    ensures { view_progress result ≡ (state_of topology (past_of past)).progress }
{
    let (n, m) = (topology.processes, topology.channels);
    let logical = table([false; PROCESSES], n, |p| histories::marked(histories, p));
    let saved = table([false; PROCESSES], n, |p| told::saved(topology, &past, p));
    let closed = table([false; CHANNELS], m, |c| told::closed(&past, c));
    let sent = table([false; CHANNELS], m, |c| told::marker_sent(&past, c));
    Flags {
        logical,
        saved,
        closed,
        sent,
    }
}

// How many entries each log has.
#[tactic(auto, using(model::proofs::laws::TopologyLaws::accepted_sizes))]
fn counts(topology: Topology, past: Past) -> Counts
    requires { Ready topology past }
    ensures { view_counts result ≡ (state_of topology (past_of past)).counts }
{
    let (n, m) = (topology.processes, topology.channels);
    let messages = table(
        [0; PROCESSES],
        n,
        |p| told::messages(topology, &past, p) as u8,
    );
    let channels = table([0; CHANNELS], m, |c| told::logged(&past, c) as u8);
    Counts { messages, channels }
}

// All of it: also each process's word and its tag, and each channel's entries.
#[tactic(auto, using(model::proofs::laws::TopologyLaws::accepted_sizes))]
pub fn of(topology: Topology, past: Past) -> State
    requires { Ready topology past }
    ensures { view result ≡ state_of topology (past_of past) }
{
    // Each table has a name, since no proof is made where a field is given a call's array straight.
    let histories = feed::feed(topology, past);
    let turned = round::turned(past);
    let (n, m) = (topology.processes, topology.channels);
    let words = table([0; PROCESSES], n, |p| contents::word(past, histories, p));
    let tags = table(
        [false; PROCESSES],
        n,
        |p| turned != histories::marked(histories, p),
    );
    let flags = flags(topology, past, histories);
    let nothing = contents::empty();
    let held = table(
        [nothing; CHANNELS],
        m,
        |c| held(topology, &past, &histories, &flags, turned, c),
    );
    let places = table([places(nothing); CHANNELS], m, |c| places(held[c as usize]));
    let lengths = table([0; CHANNELS], m, |c| held[c as usize].count);
    State {
        topology,
        round: Round {
            line: round::line(past) as u32,
            phase: round::phase(topology, past),
        },
        words,
        tags,
        places,
        lengths,
        flags,
        counts: counts(topology, past),
    }
}
