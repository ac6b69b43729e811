//! Rows of links, each the set of the stages after one stage: functions from rows to rows.

ghost use Rattle.std.specs.Prelude.{◌≡◌, ℕ, ◌&&◌, ◌||◌};
ghost use Rattle.theory.specs.Loops.{between};
ghost use Rattle.theory.specs.Moves.{passed};
ghost use Rattle.graph.specs.Marks.{linked};
ghost use Rattle.graph.specs.StageSets.{stages, words};

use crate::stage_set::StageSet;
use std::array;

/// The row of stage `u`, which is empty for a number from 64 on.
pub(crate) fn row(rows: &[StageSet; 64], u: usize) -> StageSet
    ensures { (w : ℕ) → stages result w ≡ linked (words rows.now) u w }
{
    rows.get(u).copied().unwrap_or(StageSet::empty())
}

/// The rows with a link from each stage before `v` to each stage after it.
pub(crate) fn rows_bridged(rows: &[StageSet; 64], v: u8) -> [StageSet; 64]
    ensures { (a b : ℕ) → linked (words result) a b ≡ (linked (words rows.now) a b || linked (words rows.now) a v && linked (words rows.now) v b) }
{
    let after = row(rows, v as usize);
    array::from_fn(
        |u| -> StageSet
            ensures { (w : ℕ) → stages result w ≡ (linked (words rows.entry.now) u w || linked (words rows.entry.now) u v && stages after w) }
        {
            let own = row(rows, u);
            if own.has(v) { own.union(after) } else { own }
        },
    )
}

/// The rows once stage `v` is passed.
pub(crate) fn rows_past(rows: &[StageSet; 64], v: u8) -> [StageSet; 64]
    ensures { (a b : ℕ) → linked (words result) a b ≡ passed (linked (words rows.now)) v a b }
{
    rows_among(&rows_bridged(rows, v), StageSet::below(64).without(v))
}

/// The rows of the links between two stages of a set.
pub(crate) fn rows_among(rows: &[StageSet; 64], set: StageSet) -> [StageSet; 64]
    ensures { (a b : ℕ) → linked (words result) a b ≡ between (linked (words rows.now)) (stages set) a b }
{
    array::from_fn(
        |u| -> StageSet
            ensures { (w : ℕ) → stages result w ≡ between (linked (words rows.entry.now)) (stages set) u w }
        {
            if set.has_index(u) {
                row(rows, u).intersection(set)
            } else {
                StageSet::empty()
            }
        },
    )
}
