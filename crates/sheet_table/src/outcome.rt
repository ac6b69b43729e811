//! What reading a sheet of the table gives.

use crate::case::Case;
use graph::graph::Graph;
use price::count::Count;
use price::memory::Memory;
use sheet::figures::Figures;
use sheet::filed_price::FiledPrice;
use sheet::kind::Kind;
use sheet::reading::read;
use std::alloc::{AllocError, Global};

/// The links of a graph, each after a space, by rising from stage and then by rising to stage.
fn links(heap: Global, graph: &Graph) -> Result<String, AllocError> {
    let mut text = String::new(heap);
    for from in 0..graph.stage_count() {
        for to in 0..graph.stage_count() {
            if graph.links().is_linked(from, to) {
                write!(text, " {from}-{to}")?;
            }
        }
    }
    Ok(text)
}

/// The live stages of a graph, each after a space.
fn live_stages(heap: Global, graph: &Graph) -> Result<String, AllocError> {
    let mut text = String::new(heap);
    for s in (0..graph.stage_count()).filter(|s| graph.live().has(*s)) {
        write!(text, " {s}")?;
    }
    Ok(text)
}

/// The prices of the first stages, each after a space: one figure, or two with a slash between them.
fn prices_of<P: FiledPrice>(heap: Global, prices: &[P], stages: u8) -> Result<String, AllocError> {
    let mut text = String::new(heap);
    for price in prices.iter().take(usize::from(stages)) {
        match price.figures() {
            Figures::One(a) => write!(text, " {a}")?,
            Figures::Two(a, b) => write!(text, " {a}/{b}")?,
        }
    }
    Ok(text)
}

/// What reading a sheet as the kind `P` gives.
fn outcome_as<P: FiledPrice>(heap: Global, case: &Case) -> Result<String, AllocError> {
    let mut graph = Graph::empty();
    let mut prices = vec![in heap; P::nothing(); case.room]?;
    if let Err(fault) = read(&case.sheet, &mut graph, &mut prices) {
        return format!(in heap; "{fault}");
    }
    let stages = graph.stage_count();
    let links = links(heap, &graph)?;
    let live = live_stages(heap, &graph)?;
    let prices = prices_of(heap, &prices, stages)?;
    format!(in heap; "read {stages} stages; links:{links}; live:{live}; prices:{prices}")
}

/// What reading the sheet of a case gives: the fault, or the graph and its prices.
pub(crate) fn outcome(heap: Global, case: &Case) -> Result<String, AllocError> {
    match case.kind {
        Kind::Count => outcome_as::<Count>(heap, case),
        Kind::Memory => outcome_as::<Memory>(heap, case),
    }
}
