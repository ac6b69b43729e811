//! Links between stages.

ghost use Rattle.std.specs.Prelude.{◌≡◌, ℕ, true, ◌&&◌, length};
ghost use Rattle.graph.specs.Marks.{linked, marked};
ghost use Rattle.graph.specs.StageSets.{words};

use crate::stage_set::StageSet;

mod methods;
mod rows;

/// A directed graph on a set of stages, with no live marks. Row u is the set of the stages that stage u has a link
/// to. Its ghost fields say that no link leaves its own stages.
#[derive(Clone, Copy, Debug, PartialEq, Eq)]
pub struct Digraph {
    stages: StageSet,
    rows: [StageSet; 64],
    ghost long: { length rows ≡ 64 },
    ghost inside: { (u w : ℕ) → linked (words rows) u w ≡ true → (marked stages.word u && marked stages.word w) ≡ true },
}
