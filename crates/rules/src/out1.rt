//! OUT1: pass a stage whose only link out is to another stage that is not dearer.

ghost use Rattle.std.specs.Prelude.{◌≡◌, Decides};
ghost use Rattle.rules.specs.StageRules.{OnLowest};
ghost use Rattle.rules.specs.declared.action.Action.TheVariants.{Pass};
ghost use Rattle.rules.specs.NeighbourLaws.{out1_lawful};
ghost use Rattle.rules.specs.NeighbourRules.{out1_answer};
ghost use Rattle.rules.specs.NeighbourTests.{OnlyLinkOut, read_by_one};
ghost use Rattle.rules.specs.Nets.{net};

use crate::action::Action;
use crate::prices::is_not_dearer;
use crate::rule::Rule;
use crate::search::lowest_stage;
use crate::sets::only_stage;
use graph::digraph::Digraph;
use price::price::Price;

/// Passes the lowest stage with one link out, to another stage that is not dearer: each loop through it passes through
/// the other too.
#[derive(Clone, Copy, Debug)]
pub struct Out1;

/// Whether a stage is there and exactly one link leads from it, to another stage that is not dearer.
pub fn has_only_link_out<P: Price>(graph: &Digraph, prices: &[P], v: u8) -> bool
    ensures test { result ≡ read_by_one P.kind prices.now (net graph.now) v }
    ensures in_words { Decides result (OnlyLinkOut P.kind prices.now (net graph.now) v) }
{
    graph.stages().has(v)
        && only_stage(graph.after(v)).is_some_and(|w| w != v && is_not_dearer(prices, w, v))
}

impl<P: Price> Rule<P> for Out1 {
    ghost answer = { λ r g prices. out1_answer P.kind prices g };

    ghost lawful = { λ r g prices i. out1_lawful P.kind P.lawful prices g i };

    fn ask(&self, graph: &Digraph, prices: &[P]) -> Option<Action>
        ensures answer { result ≡ out1_answer P.kind prices.now (net graph.now) }
        ensures in_words { OnLowest Pass (OnlyLinkOut P.kind prices.now (net graph.now)) result }
    {
        lowest_stage(|v| has_only_link_out(graph, prices, v)).map(Action::Pass)
    }
}
