// The papers tell refusals by their numbers.
ghost use Rattle.std.specs.Prelude.{◌≡◌};
ghost use Rattle.model.specs.Outcome.{refusal_number};

use model::Refusal;

// The papers' number of a refusal.
pub fn number(r: Refusal) -> u8
    ensures { result ≡ refusal_number r }
{
    r as u8
}
