//! Single stages of a set.

ghost use Rattle.std.specs.Prelude.{◌≡◌};
ghost use Rattle.graph.specs.StageSets.{stages};
ghost use Rattle.rules.specs.NeighbourTests.{none_but, only};
ghost use Rattle.rules.specs.Searches.{lowest, none_passes};

use crate::search::lowest_stage;
use graph::stage_set::StageSet;

/// The lowest stage of a set.
pub(crate) fn lowest_of(set: StageSet) -> Option<u8>
    ensures { result ≡ lowest (stages set) }
{
    lowest_stage(|s| set.has(s))
}

/// Whether a set has no stage.
pub(crate) fn is_empty(set: StageSet) -> bool
    ensures { result ≡ none_passes (stages set) }
{
    set == StageSet::empty()
}

/// Whether a set has no stage but `s`.
fn has_none_but(set: StageSet, s: u8) -> bool
    ensures { result ≡ none_but (stages set) s }
{
    is_empty(set.without(s))
}

/// The stage of a set that has exactly one.
pub(crate) fn only_stage(set: StageSet) -> Option<u8>
    ensures { result ≡ only (stages set) }
{
    lowest_of(set).filter(|s| has_none_but(set, *s))
}
