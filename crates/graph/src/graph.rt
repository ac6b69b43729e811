//! Graphs of stages with live marks.

ghost use Rattle.std.specs.Prelude.{◌≡◌, ℕ, ◌<◌, ◌≤◌, true, nat_lt};
ghost use Rattle.theory.specs.Loops.{Loop, between};
ghost use Rattle.graph.specs.Marks.{linked, marked};
ghost use Rattle.graph.specs.StageSets.{words};

use crate::digraph::Digraph;
use crate::stage_set::StageSet;

mod edits;
mod methods;

/// A graph of `n` stages, numbered from 0, at most 64, with links between them and live marks on some. Its
/// ghost fields say that its stages are those below `n`, that live marks are on stages, and that live stages
/// alone contain no loop.
#[derive(Clone, Copy, Debug, PartialEq, Eq)]
pub struct Graph {
    n: u8,
    links: Digraph,
    live: StageSet,
    ghost few: { n ≤ 64 },
    ghost numbered: { (s : ℕ) → marked links.stages.word s ≡ nat_lt s n },
    ghost live_stages: { (s : ℕ) → marked live.word s ≡ true → s < n },
    ghost no_live_loop: { Loop (between (linked (words links.rows)) (marked live.word)) → ⊥ },
}
