// What a turn writes of a round's progress and of the logs' counts: what its spot has, or all of it set back. (`back`
// is a flag of the turn's reset, and the promise is said of it: `put_progress`, `put_counts`.)
ghost use Rattle.std.specs.Prelude.{◌≡◌, ◌<◌};
ghost use Rattle.model.specs.Topology.{process_limit, channel_limit};
ghost use Rattle.model.specs.State.{view_progress, view_counts};
ghost use Rattle.engine.specs.Spots.{put_progress, put_counts};

use crate::spot::{Spot, Subject};
use model::{Counts, Flags};
use rules::fresh;

pub fn flags(flags: &mut Flags, back: bool, at: Subject, new: Spot)
    requires { (at.channel < channel_limit) × (at.process < process_limit) }
    ensures { view_progress flags.new ≡ put_progress back at new (view_progress flags.old) }
{
    if back {
        *flags = fresh::flags();
    } else {
        let c = at.channel as usize;
        let p = at.process as usize;
        flags.logical[p] = new.logical;
        flags.saved[p] = new.saved;
        flags.closed[c] = new.closed;
        flags.sent[c] = new.sent;
    }
}

pub fn counts(counts: &mut Counts, back: bool, at: Subject, new: Spot)
    requires { (at.channel < channel_limit) × (at.process < process_limit) }
    ensures { view_counts counts.new ≡ put_counts back at new (view_counts counts.old) }
{
    if back {
        *counts = fresh::counts();
    } else {
        counts.messages[at.process as usize] = new.in_messages;
        counts.channels[at.channel as usize] = new.in_channel;
    }
}
