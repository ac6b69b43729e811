//! LOOP: hold a stage with a self-link.

ghost use Rattle.std.specs.Prelude.{◌≡◌, Decides};
ghost use Rattle.rules.specs.declared.action.Action.TheVariants.{Hold};
ghost use Rattle.rules.specs.Nets.{net};
ghost use Rattle.rules.specs.StageLaws.{loop_lawful};
ghost use Rattle.rules.specs.StageRules.{OnLowest, loop_answer};
ghost use Rattle.rules.specs.StageTests.{SelfLinked, self_linked};

use crate::action::Action;
use crate::rule::Rule;
use crate::search::lowest_stage;
use graph::digraph::Digraph;
use price::price::Price;

/// Holds the lowest stage with a self-link, which every set that breaks the graph contains.
#[derive(Clone, Copy, Debug)]
pub struct Loop;

/// Whether a stage is there and has a self-link.
pub fn is_self_linked(graph: &Digraph, s: u8) -> bool
    ensures test { result ≡ self_linked (net graph.now) s }
    ensures in_words { Decides result (SelfLinked (net graph.now) s) }
{
    graph.stages().has(s) && graph.is_linked(s, s)
}

impl<P: Price> Rule<P> for Loop {
    ghost answer = { λ r g prices. loop_answer g };

    ghost lawful = { λ r g prices i. loop_lawful P.kind P.lawful prices g i };

    fn ask(&self, graph: &Digraph, _prices: &[P]) -> Option<Action>
        ensures answer { result ≡ loop_answer (net graph.now) }
        ensures in_words { OnLowest Hold (SelfLinked (net graph.now)) result }
    {
        lowest_stage(|s| is_self_linked(graph, s)).map(Action::Hold)
    }
}
