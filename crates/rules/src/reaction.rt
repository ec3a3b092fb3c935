// What an entry does to its receiver as it is received (document 01's take), decided here and nowhere else.
ghost use Rattle.std.specs.Prelude.{◌≡◌};
ghost use Rattle.model.specs.Outcome.{said_by};
ghost use Rattle.model.specs.Channel.{body_of, receipt_of};
ghost use Rattle.model.specs.Receive.{in_message_log};
ghost use Rattle.model.specs.Step.{received_outcome};
ghost use Rattle.rules.specs.Reacting.{Reacts, logging};

use model::{Entry, Outcome, Phase, Receipt, Receiver};

// Whether the receiver gets its logical checkpoint first (is marked), whether the channel is closed, and the logs that
// it goes into, one or both, in this order. specs/Reacting.antt has its meaning.
#[derive(Clone, Copy)]
pub struct Reaction {
    pub logical_first: bool,
    pub closes: bool,
    pub channel_log: bool,
    pub message_log: bool,
}

// No logical checkpoint, and the channel stays open: the message log at most.
fn logs(needed: bool) -> Reaction
    ensures { result ≡ logging needed }
{
    Reaction {
        logical_first: false,
        closes: false,
        channel_log: false,
        message_log: needed,
    }
}

// Whether a message received in the logical phase goes into its receiver's message log. logical: whether the receiver
// has its logical checkpoint by then. An early one logs before that; a late one, anti-messages, from then until it is
// saved.
#[tactic(auto, unfolding(model::specs::Receive::in_message_log))]
fn in_message_log(late: bool, logical: bool, saved: bool) -> bool
    ensures { result ≡ in_message_log late logical saved }
{
    if late { logical & !saved } else { !logical }
}

// What an entry does to its receiver.
#[tactic(auto, unfolding(crate::specs::Reacting::view_reaction, // what the code answers; what is defined:
model::specs::Receive::reaction_to, model::specs::Receive::logs_only))]
pub fn react(phase: Phase, r: Receiver, e: Entry) -> Reaction
    ensures { Reacts phase r e result }
{
    match (phase, e) {
        (Phase::Physical(next), Entry::Message { .. }) => logs((r.process < next) & !r.late),
        (Phase::Logical, Entry::Message { body: _, tag }) => {
            let differs = tag != r.tag;
            Reaction {
                logical_first: !r.logical & differs,
                channel_log: r.logical & differs,
                ..logs(in_message_log(r.late, r.logical | differs, r.saved))
            }
        }
        (Phase::Logical, Entry::Marker) => Reaction {
            logical_first: !r.logical,
            closes: true,
            ..logs(false)
        },
        _ => logs(false),
    }
}

// The message's body; a marker has none.
fn body(e: Entry) -> u32
    ensures { result ≡ body_of e }
{
    match e {
        Entry::Message { body, tag: _ } => body,
        Entry::Marker => 0,
    }
}

// What receiving it on a channel brings.
pub fn receipt(channel: u8, e: Entry) -> Receipt
    ensures { result ≡ receipt_of channel e }
{
    Receipt {
        channel: channel as u32,
        body: body(e),
    }
}

// What receiving it answers.
#[tactic(auto, unfolding(model::specs::Step::received_outcome))]
pub fn outcome(e: Entry) -> Outcome
    ensures { said_by result ≡ received_outcome e }
{
    match e {
        Entry::Message { body, tag: _ } => Outcome::Received(body),
        Entry::Marker => Outcome::ReceivedMarker,
    }
}
