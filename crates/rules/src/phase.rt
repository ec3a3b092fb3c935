// What the phase of a round is: idle, physical (document 01's copying) or logical (marking).
ghost use Rattle.std.specs.Prelude.{◌≡◌};
ghost use Rattle.model.specs.Phase.{is_idle, is_logical, is_next};

use model::Phase;

// The largest line number there is, after which no round begins.
pub const LAST_LINE: u32 = 4294967295;

pub fn is_idle(phase: Phase) -> bool
    ensures { result ≡ is_idle phase }
{
    matches!(phase, Phase::Idle)
}

pub fn is_logical(phase: Phase) -> bool
    ensures { result ≡ is_logical phase }
{
    matches!(phase, Phase::Logical)
}

// Whether the process is the next to have its physical checkpoint.
pub fn is_next(phase: Phase, process: u8) -> bool
    ensures { result ≡ is_next phase process }
{
    matches!(phase, Phase::Physical(next) if process == next)
}
