//! OUT0: pass a stage without links out.

ghost use Rattle.std.specs.Prelude.{◌≡◌, Decides};
ghost use Rattle.rules.specs.declared.action.Action.TheVariants.{Pass};
ghost use Rattle.rules.specs.Nets.{net};
ghost use Rattle.rules.specs.StageLaws.{out0_lawful};
ghost use Rattle.rules.specs.StageRules.{OnLowest, out0_answer};
ghost use Rattle.rules.specs.StageTests.{NoneAfter, none_after};

use crate::action::Action;
use crate::rule::Rule;
use crate::search::lowest_stage;
use crate::sets::is_empty;
use graph::digraph::Digraph;
use price::price::Price;

/// Passes the lowest stage that no link leads from: no loop passes through it.
#[derive(Clone, Copy, Debug)]
pub struct Out0;

/// Whether a stage is there and no link leads from it.
pub fn has_none_after(graph: &Digraph, s: u8) -> bool
    ensures test { result ≡ none_after (net graph.now) s }
    ensures in_words { Decides result (NoneAfter (net graph.now) s) }
{
    graph.stages().has(s) && is_empty(graph.after(s))
}

impl<P: Price> Rule<P> for Out0 {
    ghost answer = { λ r g prices. out0_answer g };

    ghost lawful = { λ r g prices i. out0_lawful P.kind P.lawful prices g i };

    fn ask(&self, graph: &Digraph, _prices: &[P]) -> Option<Action>
        ensures answer { result ≡ out0_answer (net graph.now) }
        ensures in_words { OnLowest Pass (NoneAfter (net graph.now)) result }
    {
        lowest_stage(|s| has_none_after(graph, s)).map(Action::Pass)
    }
}
