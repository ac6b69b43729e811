//! Loops, breaking sets, tests for them, moves and reach, with no code: each function states a theorem in its
//! contract.

#![tactic(auto)]

ghost use Rattle.theory.specs.LoopTests.{BreakingTestDecides, LoopTestDecides};
ghost use Rattle.theory.specs.Kept.{DominatedDropsFreely, HoldingKeepsTheSetsWith, OffUnpairedLoopsDropsFreely, PassingKeepsTheSetsWithout};
ghost use Rattle.theory.specs.Reach.{OnLoopIffReachedBack, ReachingDecidesWalks};
ghost use Rattle.theory.specs.Walks.{BreaksIffNoClosedWalkAvoids};

/// A set breaks a graph exactly if no closed walk avoids it.
pub fn breaks_iff_no_closed_walk_avoids()
    ensures { BreaksIffNoClosedWalkAvoids }
{}

/// The computed tests decide whether there is a loop, and whether a set breaks every loop.
pub fn loop_tests_decide()
    ensures loops { LoopTestDecides }
    ensures breaking { BreakingTestDecides }
{}

/// What holding and passing a stage keep of the breaking sets.
pub fn holding_and_passing_keep_breaking_sets()
    ensures holding { HoldingKeepsTheSetsWith }
    ensures passing { PassingKeepsTheSetsWithout }
{}

/// When an unpaired link can be dropped and the same sets break the graph.
pub fn needless_links_drop_freely()
    ensures off_unpaired_loops { OffUnpairedLoopsDropsFreely }
    ensures dominated { DominatedDropsFreely }
{}

/// Reachability as computed is the existence of a walk, and tells which links lie on a loop.
pub fn reaching_decides()
    ensures walks { ReachingDecidesWalks }
    ensures loops { OnLoopIffReachedBack }
{}
