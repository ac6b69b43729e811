//! Plans of a graph: a theorem, with no code.

ghost use Rattle.graph.specs.Plans.{NotLiveStagesAreAPlan};

/// The stages that are not live are a plan, so every graph has one.
pub fn not_live_stages_are_a_plan()
    ensures { NotLiveStagesAreAPlan }
{}
