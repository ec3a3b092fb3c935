// What the histories tell of a process and of a channel: its word, and the messages under way. (Kinds stay numbers, and
// a flag says whether a word is entered or an entry pushed, as `filled` and `cond` of the definitions have it.)
ghost use Rattle.std.specs.Prelude.{◌≡◌, cond, [], ◌∷◌, ◌++◌, ◌<◌, ◌≤◌, ◌+◌, ◌-◌, length};
ghost use Rattle.model.specs.Channel.{entries, entry_of};
ghost use Rattle.model.specs.Word as words;
ghost use Rattle.model.specs.History.{receipts_of};
ghost use Rattle.slow.specs.Kept.{deed_at};
ghost use Rattle.slow.specs.Seen.{Here, history_seen, kind_of, MayFill, filled, held_by};

use crate::deeds::Past;
use crate::events::Histories;
use crate::{feed, histories, look, tests, told};
use model::{Channel, PLACES, Receipt, Topology};
use rules::word::enter;

// A word with one deed more: a receive enters it.
fn entered(word: u32, receive: bool, channel: u8, body: u32) -> u32
    ensures { result ≡ cond receive (words.enter word (words.receipt channel body)) word }
{
    if !receive {
        return word;
    }
    enter(
        word,
        Receipt {
            channel: channel as u32,
            body,
        },
    )
}

// Process p's word: what the receives in its history make of 0.
#[tactic(auto, unfolding(crate::specs::Seen::history_seen, model::specs::Notation::tabulate, model::specs::History::receipts_of, model::specs::Word::replay_by,))]
pub fn word(past: Past, histories: Histories, p: u8) -> u32
    requires { p < 16 }
    ensures { result ≡ words.replay 0 (receipts_of ((history_seen (deed_at past) histories).events p)) }
{
    let mut word = 0;
    for k in 0..histories.counts[p as usize] {
        let i = histories.entries[p as usize][k as usize];
        let d = past.deeds[i as usize];
        word = entered(word, !tests::did(d, 1), d.channel, d.body);
    }
    word
}

// The kind of a message, by whether it was sent after its sender's mark.
fn kind(turned: bool, after: bool) -> u8
    ensures { result ≡ kind_of turned after }
{
    (turned != after) as u8
}

// A channel with no entry.
#[tactic(auto, unfolding(model::specs::Channel::entries, model::specs::Notation::tabulate))]
pub fn empty() -> Channel
    ensures { entries result ≡ [] }
{
    Channel {
        bodies: [0; PLACES],
        kinds: [0; PLACES],
        count: 0,
    }
}

// One entry more, if it is one.
#[tactic(auto, using(model::proofs::laws::ChannelLaws::entries_count, model::proofs::laws::ChannelLaws::extended))]
fn push(mut c: Channel, yes: bool, kind: u8, body: u32) -> Channel
    requires { length (entries c) + cond yes 1 0 ≤ 8 }
    ensures { entries result ≡ entries c ++ cond yes (entry_of kind body ∷ []) [] }
{
    if yes {
        let at = c.count as usize;
        c.kinds[at] = kind;
        c.bodies[at] = body;
        c.count += 1;
    }
    c
}

// The sends on a channel in its sender's history, from one to before another, pushed onto it. (`seen` counts the sends,
// and no index.)
fn fill(
    first: Channel,
    past: Past,
    histories: Histories,
    p: u8,
    channel: u8,
    turned: bool,
    from: u16,
    to: u16,
) -> Channel
    requires { MayFill turned past histories p channel from to (entries first) }
    ensures { entries result ≡ filled turned past histories p channel from to (entries first) }
{
    let mark = histories.marks[p as usize];
    let mut c = first;
    let mut seen: u16 = 0;
    for k in 0..histories.counts[p as usize] {
        let i = histories.entries[p as usize][k as usize];
        let d = past.deeds[i as usize];
        let on = tests::on_channel(d, 1, channel);
        let yes = on & ((from <= seen) & (seen < to));
        c = push(c, yes, kind(turned, histories::is_after(mark, k)), d.body);
        seen = tests::and_one(seen, on);
    }
    c
}

// Where the marker goes in among the sends: before the last n of those under way, and where there is none at their end.
fn split(marker: bool, received: u16, total: u16, n: u16) -> u16
    ensures { result ≡ cond marker (received + (total - received - n)) total }
{
    if !marker {
        return total;
    }
    received + total.saturating_sub(received).saturating_sub(n)
}

// What is under way on a channel, and its marker before what was sent since.
#[tactic(auto, unfolding(model::specs::Topology::sender, model::specs::Topology::receiver))]
pub fn channel(
    topology: Topology,
    past: Past,
    histories: Histories,
    turned: bool,
    marker: bool,
    c: u8,
) -> Channel
    requires { Here topology past histories turned marker c }
    ensures { entries result ≡ held_by topology past histories turned marker c }
{
    let p = look::at(&topology.from, c, 0);
    let q = look::at(&topology.to, c, 0);
    let received = feed::number_on(past, histories, q, false, c, histories.counts[q as usize]);
    let total = feed::number_on(past, histories, p, true, c, histories.counts[p as usize]);
    let split = split(marker, received, total, told::behind(&past, c));
    let ahead = fill(empty(), past, histories, p, c, turned, received, split);
    let with_marker = push(ahead, marker, 2, 0);
    fill(with_marker, past, histories, p, c, turned, split, total)
}
