// Cells of a store at a fixed distance from each other.
ghost use Rattle.std.specs.Prelude.{◌≡◌, ◌+◌, ◌*◌, ◌&&◌, length, nat_le, nat_lt};
ghost use Rattle.model.specs.Notation.{all_below};
ghost use Rattle.model.specs.Form.{cell};

use crate::below;

// Whether n cells, from first on and each a stride after the one before, are in the store and hold at most the limit.
#[tactic(auto, unfolding(model::specs::Notation::all_below, model::specs::Form::cell))]
pub fn at_most(store: &[u32], first: u32, stride: u32, n: u8, limit: u8) -> bool
    ensures { result ≡ all_below n (λ i. nat_lt (first + stride * i) (length store.now)
        && nat_le (cell store.now (first + stride * i)) limit) }
{
    if n == 0 {
        return true;
    }
    let (from, step) = (first as usize, stride as usize);
    if store.len() <= from + step * ((n - 1) as usize) {
        return false;
    }
    below::all(n, |i| store[from + step * i] <= limit as u32)
}
