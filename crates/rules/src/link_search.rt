//! The search for the lowest link that passes a test.

ghost use Rattle.std.specs.Prelude.{◌≡◌, ℕ, ◌<◌, Bool};
ghost use Rattle.rules.specs.LinkSearches.{lowest_link};

/// The lowest link that passes a test, by from numbers and then by to numbers.
pub(crate) fn lowest_link<F: Fn(u8, u8) -> bool>(test: F) -> Option<(u8, u8)>
    requires { F.IsAlwaysCallable test }
    ensures { (f : ℕ → ℕ → Bool) → ((u w : ℕ) (b : Bool) → u < 64 → w < 64 → F.post test u w b → b ≡ f u w) → result ≡ lowest_link f }
{
    let mut found = None;
    'search: for u in 0..64u8 {
        for w in 0..64u8 {
            if test(u, w) {
                found = Some((u, w));
                break 'search;
            }
        }
    }
    found
}
