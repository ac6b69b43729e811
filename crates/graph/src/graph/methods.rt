//! Making a graph, and what it answers.

ghost use Rattle.std.specs.Prelude.{◌≡◌, ℕ};
ghost use Rattle.std.specs.Option.{option_map};
ghost use Rattle.graph.specs.Graphs.{bare, plain, sized};
ghost use Rattle.graph.specs.Plans.{not_live};
ghost use Rattle.graph.specs.StageSets.{stages};

use super::Graph;
use crate::digraph::Digraph;
use crate::stage_set::StageSet;

impl Graph {
    /// The graph with no stages.
    pub fn empty() -> Graph
        ensures { plain result ≡ bare 0 }
    {
        Graph {
            n: 0,
            links: Digraph::new(StageSet::empty()),
            live: StageSet::empty(),
        }
    }

    /// The graph of `n` stages with no links and no live marks; none with more than 64 stages.
    pub fn new(n: u8) -> Option<Graph>
        ensures { option_map plain result ≡ sized n }
    {
        if n > 64 {
            return None;
        }
        Some(Graph {
            n,
            links: Digraph::new(StageSet::below(n)),
            live: StageSet::empty(),
        })
    }

    /// How many stages it has.
    pub fn stage_count(&self) -> u8
        ensures { result ≡ self.now.n }
    {
        self.n
    }

    /// Its links.
    pub fn links(&self) -> &Digraph
        ensures { result.now ≡ self.now.links }
    {
        &self.links
    }

    /// Its live stages.
    pub fn live(&self) -> StageSet
        ensures { result ≡ self.now.live }
    {
        self.live
    }

    /// Its stages that are not live, which are a plan.
    pub fn not_live(&self) -> StageSet
        ensures { (s : ℕ) → stages result s ≡ not_live (plain self.now) s }
    {
        StageSet::below(self.n).difference(self.live)
    }
}
