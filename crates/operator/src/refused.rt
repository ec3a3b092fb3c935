// Why no more is answered than one line (tell.rt).
ghost use Rattle.operator.specs.declared.refused.Refused.TheVariants.{Other};
ghost use Rattle.std.specs.Prelude.{◌≡◌};

use model::Refusal;

// The plan is refused, or what comes after it is, or what is asked.
#[derive(Clone, Copy)]
pub enum Refused {
    Plan(Refusal),
    Other(Refusal),
}

impl From<Refusal> for Refused {
    ghost from_gives = { λ r refused. refused ≡ Other r };

    fn from(r: Refusal) -> Refused {
        Refused::Other(r)
    }
}
