//! IN0: pass a stage without links in.

ghost use Rattle.std.specs.Prelude.{◌≡◌, Decides};
ghost use Rattle.rules.specs.declared.action.Action.TheVariants.{Pass};
ghost use Rattle.rules.specs.Nets.{net};
ghost use Rattle.rules.specs.StageLaws.{in0_lawful};
ghost use Rattle.rules.specs.StageRules.{OnLowest, in0_answer};
ghost use Rattle.rules.specs.StageTests.{NoneBefore, none_before};

use crate::action::Action;
use crate::rule::Rule;
use crate::search::lowest_stage;
use crate::sets::is_empty;
use graph::digraph::Digraph;
use price::price::Price;

/// Passes the lowest stage that no link leads to: no loop passes through it.
#[derive(Clone, Copy, Debug)]
pub struct In0;

/// Whether a stage is there and no link leads to it.
pub fn has_none_before(graph: &Digraph, s: u8) -> bool
    ensures test { result ≡ none_before (net graph.now) s }
    ensures in_words { Decides result (NoneBefore (net graph.now) s) }
{
    graph.stages().has(s) && is_empty(graph.before(s))
}

impl<P: Price> Rule<P> for In0 {
    ghost answer = { λ r g prices. in0_answer g };

    ghost lawful = { λ r g prices i. in0_lawful P.kind P.lawful prices g i };

    fn ask(&self, graph: &Digraph, _prices: &[P]) -> Option<Action>
        ensures answer { result ≡ in0_answer (net graph.now) }
        ensures in_words { OnLowest Pass (NoneBefore (net graph.now)) result }
    {
        lowest_stage(|s| has_none_before(graph, s)).map(Action::Pass)
    }
}
