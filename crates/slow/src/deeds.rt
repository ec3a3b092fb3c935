// The deeds of the calls so far, in their order.
ghost use Rattle.std.specs.Prelude.{◌≤◌};

use account::Deed;
use model::LISTED;

// The first count of these: an array and a count, since there is no heap; `done` is their slice.
#[derive(Clone, Copy)]
pub struct Past {
    pub deeds: [Deed; LISTED],
    pub count: u16,
    pub ghost kept: { count ≤ 256 },
}

impl Past {
    ghost use Rattle.std.specs.Prelude.{◌≡◌, length, reverse};
    ghost use Rattle.account.specs.Deeds.{since};
    ghost use Rattle.slow.specs.Kept.{past_of, Tests};

    // The deeds, in the order of the calls.
    pub(crate) fn done(&self) -> &[Deed]
        ensures { (reverse result.now ≡ past_of self.now) × (length result.now ≤ 256) }
    {
        &self.deeds[..self.count as usize]
    }

    // Those after the latest that passes this test.
    pub(crate) fn since<F: Fn(Deed) -> bool>(&self, stop: F) -> &[Deed]
        requires { F.IsAlwaysCallable stop }
        ensures since { (test : _) → Tests (F.post stop) test → reverse result.now ≡ since test (past_of self.now) }
        ensures few { length result.now ≤ 256 }
    {
        let done = self.done();
        let n = done.iter().rev().take_while(|d| !stop(**d)).count();
        &done[done.len() - n..]
    }
}
