//! The search for the lowest stage that passes a test.

ghost use Rattle.std.specs.Prelude.{◌≡◌, ℕ, ◌<◌, Bool};
ghost use Rattle.rules.specs.Searches.{lowest};

/// The lowest stage that passes a test.
pub(crate) fn lowest_stage<F: Fn(u8) -> bool>(test: F) -> Option<u8>
    requires { F.IsAlwaysCallable test }
    ensures { (f : ℕ → Bool) → ((s : ℕ) (b : Bool) → s < 64 → F.post test s b → b ≡ f s) → result ≡ lowest f }
{
    for s in 0..64u8 {
        if test(s) {
            return Some(s);
        }
    }
    None
}
