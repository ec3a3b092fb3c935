// The plan that an input begins with, or its refusal.
ghost use Rattle.operator.specs.Planned.{Planned};

use crate::refused::Refused;
use model::Topology;

pub fn read(bytes: &[u8]) -> Result<Topology, Refused>
    ensures { Planned bytes.now result }
{
    plan::read(bytes).map_err(Refused::Plan)
}
