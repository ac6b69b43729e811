//! IN1: pass a stage whose only link in is from another stage that is not dearer.

ghost use Rattle.std.specs.Prelude.{◌≡◌, Decides};
ghost use Rattle.rules.specs.StageRules.{OnLowest};
ghost use Rattle.rules.specs.declared.action.Action.TheVariants.{Pass};
ghost use Rattle.rules.specs.NeighbourLaws.{in1_lawful};
ghost use Rattle.rules.specs.NeighbourRules.{in1_answer};
ghost use Rattle.rules.specs.NeighbourTests.{OnlyLinkIn, fed_by_one};
ghost use Rattle.rules.specs.Nets.{net};

use crate::action::Action;
use crate::prices::is_not_dearer;
use crate::rule::Rule;
use crate::search::lowest_stage;
use crate::sets::only_stage;
use graph::digraph::Digraph;
use price::price::Price;

/// Passes the lowest stage with one link in, from another stage that is not dearer: each loop through it passes through
/// the other too.
#[derive(Clone, Copy, Debug)]
pub struct In1;

/// Whether a stage is there and exactly one link leads to it, from another stage that is not dearer.
pub fn has_only_link_in<P: Price>(graph: &Digraph, prices: &[P], v: u8) -> bool
    ensures test { result ≡ fed_by_one P.kind prices.now (net graph.now) v }
    ensures in_words { Decides result (OnlyLinkIn P.kind prices.now (net graph.now) v) }
{
    graph.stages().has(v)
        && only_stage(graph.before(v)).is_some_and(|u| u != v && is_not_dearer(prices, u, v))
}

impl<P: Price> Rule<P> for In1 {
    ghost answer = { λ r g prices. in1_answer P.kind prices g };

    ghost lawful = { λ r g prices i. in1_lawful P.kind P.lawful prices g i };

    fn ask(&self, graph: &Digraph, prices: &[P]) -> Option<Action>
        ensures answer { result ≡ in1_answer P.kind prices.now (net graph.now) }
        ensures in_words { OnLowest Pass (OnlyLinkIn P.kind prices.now (net graph.now)) result }
    {
        lowest_stage(|v| has_only_link_in(graph, prices, v)).map(Action::Pass)
    }
}
