//! What a set of stages answers and makes.

#![tactic(auto, using(crate::proofs::Marks::marks))]

ghost use Rattle.std.specs.Prelude.{◌≡◌, ℕ, false, not, ◌&&◌, ◌||◌, ◌==◌, nat_lt};
ghost use Rattle.graph.specs.Marks.{marked};
ghost use Rattle.graph.specs.StageSets.{stages};

use super::StageSet;

/// The word that marks stage `s` alone, and nothing for a number from 64 on.
fn mark(s: u8) -> u64
    ensures { (t : ℕ) → marked result t ≡ (t == s && nat_lt s 64) }
{
    1u64.checked_shl(u32::from(s)).unwrap_or(0)
}

impl StageSet {
    /// The set with no stage.
    pub fn empty() -> StageSet
        ensures { (s : ℕ) → stages result s ≡ false }
    {
        StageSet { word: 0 }
    }

    /// The stages numbered below `n`, all 64 where `n` is larger.
    pub fn below(n: u8) -> StageSet
        ensures { (s : ℕ) → stages result s ≡ (nat_lt s n && nat_lt s 64) }
    {
        if n < 64 {
            return StageSet { word: (1 << n) - 1 };
        }
        StageSet { word: u64::MAX }
    }

    /// Whether stage `s` is in the set.
    pub fn has(self, s: u8) -> bool
        ensures { result ≡ stages self s }
    {
        self.word & mark(s) != 0
    }

    // It stands beside `has`, since one method for both types of number would leave the `3` of `has(3)` without a type.
    // Loops over a table ask one set at each index, so it shifts the word; loops over rows ask for one stage, so `has` masks.
    /// Whether the stage with this index in a table is in the set; from 64 on there is none.
    pub fn has_index(self, index: usize) -> bool
        ensures { result ≡ stages self index }
    {
        index < 64 && (self.word >> index) & 1 == 1
    }

    /// The set with stage `s` in it too; a number from 64 on names no stage and adds none.
    pub fn with(self, s: u8) -> StageSet
        ensures { (t : ℕ) → stages result t ≡ (stages self t || t == s && nat_lt s 64) }
    {
        StageSet {
            word: self.word | mark(s),
        }
    }

    /// The set without stage `s`.
    pub fn without(self, s: u8) -> StageSet
        ensures { (t : ℕ) → stages result t ≡ (stages self t && not (t == s)) }
    {
        StageSet {
            word: self.word & !mark(s),
        }
    }

    /// The stages in either set.
    pub fn union(self, other: StageSet) -> StageSet
        ensures { (s : ℕ) → stages result s ≡ (stages self s || stages other s) }
    {
        StageSet {
            word: self.word | other.word,
        }
    }

    /// The stages in both sets.
    pub fn intersection(self, other: StageSet) -> StageSet
        ensures { (s : ℕ) → stages result s ≡ (stages self s && stages other s) }
    {
        StageSet {
            word: self.word & other.word,
        }
    }

    /// The stages in this set and not in the other.
    pub fn difference(self, other: StageSet) -> StageSet
        ensures { (s : ℕ) → stages result s ≡ (stages self s && not (stages other s)) }
    {
        StageSet {
            word: self.word & !other.word,
        }
    }
}
