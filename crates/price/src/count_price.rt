//! Counts as a price kind.

#![tactic(auto, using(crate::specs::CountLaws::count_same), unfolding(crate::specs::Counts::count))]

ghost use Rattle.std.specs.Prelude.{◌≡◌, ◌+◌, ◌-◌, ◌^◌, ◌<◌, ◌≤◌};
ghost use Rattle.price.specs.Counts.{counts};
ghost use Rattle.price.specs.CountLaws.{count_laws};

use crate::count::Count;
use crate::price::Price;

impl Price for Count {
    ghost kind = { counts };

    ghost lawful = { count_laws };

    fn nothing() -> Count {
        Count { holds: 0 }
    }

    /// The sum, or the largest count if that is larger.
    fn plus(self, other: Count) -> Count
        ensures sum_of_counts { result ≡ counts.plus self other }
        ensures within_width { self.holds + other.holds < 2 ^ 32 → result.holds ≡ self.holds + other.holds }
        ensures past_width { 2 ^ 32 ≤ self.holds + other.holds → result.holds ≡ 2 ^ 32 - 1 }
    {
        Count {
            holds: self.holds.saturating_add(other.holds),
        }
    }

    fn not_dearer(self, other: Count) -> bool {
        self <= other
    }
}
