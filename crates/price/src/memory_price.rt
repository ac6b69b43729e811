//! Pairs of KiB and holds as a price kind.

#![tactic(auto, using(crate::specs::MemoryLaws::memory_same), unfolding(crate::specs::Memories::memory))]

ghost use Rattle.std.specs.Prelude.{◌≡◌, ◌+◌, ◌-◌, ◌^◌, ◌<◌, ◌≤◌};
ghost use Rattle.price.specs.Memories.{memories};
ghost use Rattle.price.specs.MemoryLaws.{memory_laws};

use crate::memory::Memory;
use crate::price::Price;

impl Price for Memory {
    ghost kind = { memories };

    ghost lawful = { memory_laws };

    fn nothing() -> Memory {
        Memory { kib: 0, holds: 0 }
    }

    /// The sum part by part. If the KiB would pass their width it is the largest pair; otherwise the holds stop
    /// at their largest.
    fn plus(self, other: Memory) -> Memory
        ensures sum_of_memories { result ≡ memories.plus self other }
        ensures within_widths { self.kib + other.kib < 2 ^ 64 → self.holds + other.holds < 2 ^ 32 → (result.kib ≡ self.kib + other.kib) × (result.holds ≡ self.holds + other.holds) }
        ensures holds_past_width { self.kib + other.kib < 2 ^ 64 → 2 ^ 32 ≤ self.holds + other.holds → (result.kib ≡ self.kib + other.kib) × (result.holds ≡ 2 ^ 32 - 1) }
        ensures kib_past_width { 2 ^ 64 ≤ self.kib + other.kib → (result.kib ≡ 2 ^ 64 - 1) × (result.holds ≡ 2 ^ 32 - 1) }
    {
        match self.kib.checked_add(other.kib) {
            Some(kib) => Memory {
                kib,
                holds: self.holds.saturating_add(other.holds),
            },
            None => Memory {
                kib: u64::MAX,
                holds: u32::MAX,
            },
        }
    }

    fn not_dearer(self, other: Memory) -> bool {
        self <= other
    }
}
