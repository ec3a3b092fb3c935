// Tests of one deed. (Kinds stay numbers: judge.rt says why.)
ghost use Rattle.std.specs.Prelude.{◌≡◌, ◌&&◌, ◌||◌, cond, ◌+◌, ◌<◌};
ghost use Rattle.account.specs.Deeds.{did, on_channel, ends};
ghost use Rattle.account.specs.Round.{starts_or_ends};
ghost use Rattle.account.specs.Progress.{receives_marker, copies};
ghost use Rattle.account.specs.Logs.{clears, makes};

use account::Deed;

pub fn did(d: Deed, kind: u8) -> bool
    ensures { result ≡ did kind d }
{
    d.kind == kind
}

// Of this kind, on this channel.
pub fn on_channel(d: Deed, kind: u8, channel: u8) -> bool
    ensures { result ≡ on_channel kind channel d }
{
    did(d, kind) && d.channel == channel
}

// The end of a round: a commit, abort or recover.
pub fn ends(d: Deed) -> bool
    ensures { result ≡ ends d }
{
    did(d, 7) || did(d, 8) || did(d, 9)
}

// A begin, or the end of a round.
pub fn starts_or_ends(d: Deed) -> bool
    ensures { result ≡ starts_or_ends d }
{
    did(d, 3) || ends(d)
}

// A begin or a recover: the logs are empty.
pub fn clears(d: Deed) -> bool
    ensures { result ≡ clears d }
{
    did(d, 3) || did(d, 9)
}

// A marker received on a channel.
pub fn receives_marker(d: Deed, channel: u8) -> bool
    ensures { result ≡ receives_marker channel d }
{
    did(d, 2) && d.marker && d.channel == channel
}

// A process's physical checkpoint.
pub fn copies(d: Deed, process: u8) -> bool
    ensures { result ≡ copies process d }
{
    did(d, 4) && d.process == process
}

// A receive that made so many writes, or those of both logs.
pub fn logs(d: Deed, made: u32) -> bool
    ensures { result ≡ (did 2 d && makes made d) }
{
    did(d, 2) && (d.made == made || d.made == 5)
}

// One more, if it is one.
pub fn and_one(n: u16, more: bool) -> u16
    requires { n < 256 }
    ensures { result ≡ cond more (n + 1) n }
{
    if more { n + 1 } else { n }
}
