use graph::digraph::Digraph;
use graph::fault::{Cause, Fault, Site};
use graph::graph::Graph;
use graph::stage_set::StageSet;

mod digraphs;
mod edits;
mod live_marks;
mod moves;
mod stage_sets;

// Where the edits of these tests are asked for.
const SITE: Site = Site::Record(40);

// The graph of `n` stages with no links and no live marks, or the cause where there are too many.
fn bare(n: u8) -> Result<Graph, Cause> {
    Graph::new(n).ok_or(Cause::TooManyStages)
}

// The refusal for this cause at that site.
fn refused(cause: Cause) -> Result<(), Fault> {
    Err(cause.at(SITE))
}

// The stages below `n`, each linked to the next and the last to stage 0.
fn ring(n: u8) -> Digraph {
    let mut digraph = Digraph::new(StageSet::below(n));
    for s in 0..n {
        digraph.link(s, (s + 1) % n);
    }
    digraph
}
