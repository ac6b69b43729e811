//! CORE: hold a mate of a stage that is linked with its mates alone, which are all mates of each other.

ghost use Rattle.std.specs.Prelude.{◌≡◌, Decides};
ghost use Rattle.graph.specs.StageSets.{stages};
ghost use Rattle.rules.specs.CoreLaws.{core_lawful};
ghost use Rattle.rules.specs.CoreRules.{HoldsLowestMate, core_answer};
ghost use Rattle.rules.specs.CoreTests.{Cored, all_fit, all_linked, cored, fits, mates_of};
ghost use Rattle.rules.specs.Nets.{net};
ghost use Rattle.rules.specs.Searches.{lowest};

use crate::action::Action;
use crate::prices::is_not_dearer;
use crate::rule::Rule;
use crate::search::lowest_stage;
use crate::sets::{is_empty, lowest_of};
use graph::digraph::Digraph;
use graph::stage_set::StageSet;
use price::price::Price;

/// Holds the lowest mate of the lowest stage that is linked with its mates alone, where these are all mates of each
/// other, without self-links, and none is dearer: all but one of the stage and its mates have to be held.
#[derive(Clone, Copy, Debug)]
pub struct Core;

/// Whether stage `w` has no self-link and a link to each other stage of the set, and is not dearer than `v`.
fn is_fit<P: Price>(graph: &Digraph, prices: &[P], set: StageSet, v: u8, w: u8) -> bool
    ensures { result ≡ fits P.kind prices.now (net graph.now) (stages set) v w }
{
    !graph.is_linked(w, w)
        && is_empty(set.without(w).difference(graph.after(w)))
        && is_not_dearer(prices, w, v)
}

/// Whether `is_fit` holds of each stage of the set.
fn are_fit<P: Price>(graph: &Digraph, prices: &[P], set: StageSet, v: u8) -> bool
    ensures { result ≡ all_fit P.kind prices.now (net graph.now) (stages set) v }
{
    lowest_stage(|w| set.has(w) && !is_fit(graph, prices, set, v, w)).is_none()
}

/// Whether the set has a stage, and no stage but those of the set is linked with `v`.
fn are_all_linked(graph: &Digraph, set: StageSet, v: u8) -> bool
    ensures { result ≡ all_linked (net graph.now) (stages set) v }
{
    let linked = graph.after(v).union(graph.before(v));
    !is_empty(set) && is_empty(linked.difference(set))
}

/// Whether a stage has a mate and all its links are paired, and its mates are all mates of each other, without a
/// self-link, and not dearer than the stage.
pub fn is_cored<P: Price>(graph: &Digraph, prices: &[P], v: u8) -> bool
    ensures test { result ≡ cored P.kind prices.now (net graph.now) v }
    ensures in_words { Decides result (Cored P.kind prices.now (net graph.now) v) }
{
    let mates = graph.mates(v);
    are_all_linked(graph, mates, v) && are_fit(graph, prices, mates, v)
}

/// The lowest mate of a stage.
fn lowest_mate(graph: &Digraph, v: u8) -> Option<u8>
    ensures { result ≡ lowest (mates_of (net graph.now) v) }
{
    lowest_of(graph.mates(v))
}

impl<P: Price> Rule<P> for Core {
    ghost answer = { λ r g prices. core_answer P.kind prices g };

    ghost lawful = { λ r g prices i. core_lawful P.kind P.lawful prices g i };

    fn ask(&self, graph: &Digraph, prices: &[P]) -> Option<Action>
        ensures answer { result ≡ core_answer P.kind prices.now (net graph.now) }
        ensures in_words { HoldsLowestMate P.kind prices.now (net graph.now) result }
    {
        let stage = lowest_stage(|v| is_cored(graph, prices, v))?;
        lowest_mate(graph, stage).map(Action::Hold)
    }
}
