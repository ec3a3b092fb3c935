// A test of each number below a bound. All are tested, and none ends it early, so that LLVM can test many at a time.
ghost use Rattle.std.specs.Prelude.{ℕ, ◌<◌};
ghost use Rattle.rules.specs.Below.{TestedBelow};

// Whether the test holds of each number below n.
pub fn all<F: Fn(usize) -> bool>(n: u8, test: F) -> bool
    requires { (i : ℕ) → i < n → F.pre test i }
    ensures { TestedBelow n (F.post test) result }
{
    let mut so = true;
    for i in 0..n as usize {
        so = so & test(i);
    }
    so
}
