// Document 02, M-102: a store carried from the old form to the present one, and back. The source is only read.
#![tactic(auto)]

mod destination;

ghost use Rattle.model.specs.Layout.{present};
ghost use Rattle.reading.specs.Old.{old};
ghost use Rattle.migration.specs.Carry.{carry};
ghost use Rattle.migration.specs.Carries.{Carries};
ghost use Rattle.reading.specs.Source.{form_of};

use destination::Carriage;
use model::{Refusal, Topology};
use reading::form::Form;

// The source's line into the target, in its form; or a refusal: 1 to 5, 19, 6 and 16 of the source, then 6 of the
// target. Inlined, so that the forms are constants in each of the two functions below.
#[inline(always)]
fn carry(carriage: Carriage, source: &[u32], target: &mut [u32]) -> Result<(), Refusal>
    ensures { Carries (carry (form_of carriage.from) (form_of carriage.to) carriage.topology source.now target.old)
        result target.new }
{
    reading::admit_store(carriage.topology, carriage.from, source)?;
    reading::long_enough(carriage.to, target.len())?;
    carriage.write(source, target);
    Ok(())
}

// From the old form to the present one: of any topology, any source and any target. (This and downgrade are two: each
// only names its forms for `carry`, and one with both forms as arguments is `carry` itself.)
pub fn upgrade(topology: Topology, source: &[u32], target: &mut [u32]) -> Result<(), Refusal>
    ensures { Carries (carry old present topology source.now target.old)
        result target.new }
{
    let carriage = Carriage {
        topology,
        from: Form::Old,
        to: Form::Present,
    };
    carry(carriage, source, target)
}

// From the present form to the old one: of any topology, any source and any target.
pub fn downgrade(topology: Topology, source: &[u32], target: &mut [u32]) -> Result<(), Refusal>
    ensures { Carries (carry present old topology source.now target.old)
        result target.new }
{
    let carriage = Carriage {
        topology,
        from: Form::Present,
        to: Form::Old,
    };
    carry(carriage, source, target)
}
