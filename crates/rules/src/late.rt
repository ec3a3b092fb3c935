// Late processes (document 02, M-105): bit p of a topology's map stands where process p is late. One that isn't late
// is early.
ghost use Rattle.std.specs.Prelude.{◌≡◌, ◌/◌, ◌^◌, ◌==◌};
ghost use Rattle.model.specs.Notation.{bit_of};
ghost use Rattle.rules.specs.Late.{phase_from};

use model::Phase;

// How many bits the map has.
const MAP_BITS: u8 = 16;

// Whether process p is late.
#[tactic(auto, using(crate::proofs::Checks::beyond), unfolding(model::specs::Notation::bit_of))]
pub fn is_late(late: u16, p: u8) -> bool
    ensures { result ≡ bit_of late p }
{
    p < MAP_BITS && (late >> p) % 2 == 1
}

// Whether every late bit is that of one of so many processes, so that 19 doesn't refuse the map: nothing is left of it
// without their bits. Every step asks this, so there is no loop.
#[tactic(auto, using(crate::proofs::Checks::nothing_left))]
pub fn known(processes: u8, late: u16) -> bool
    ensures { result ≡ (late / 2 ^ processes == 0) }
{
    MAP_BITS <= processes || late >> processes == 0
}

// Where the physical checkpoints go on: at the first early process from this one on, or, where there is none, in the
// logical phase.
#[tactic(auto, unfolding(crate::specs::Late::phase_at))]
pub fn phase_from(processes: u8, late: u16, from: u8) -> Phase
    ensures { result ≡ phase_from processes late from }
{
    for p in from..processes {
        if !is_late(late, p) {
            return Phase::Physical(p);
        }
    }
    Phase::Logical
}
