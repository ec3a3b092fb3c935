// What is searched for a smallest part.
ghost use Rattle.std.specs.Prelude.{◌≡◌, ◌≤◌, length};
ghost use Rattle.std.proofs.Math.Option.{none, some};
ghost use Rattle.model.specs.CallList.{list_limit, first_failure};
ghost use Rattle.model.specs.Topology.{topology_refusal};
ghost use Rattle.reduction.specs.Replays.{failure_of};

use crate::replay::Refused;
use model::{Record, Topology};

// A list that isn't too long, on a topology that isn't refused, and its first refused call. With the refusal of this
// one a part ends too.
#[derive(Clone, Copy)]
pub struct Search<'a> {
    pub topology: Topology,
    pub list: &'a [Record],
    pub first: Refused,
    pub ghost planned: { topology_refusal topology ≡ none },
    pub ghost few: { length list.now ≤ list_limit },
    pub ghost fails: { first_failure topology list.now ≡ some (failure_of first) },
}
