//! DOME: drop an unpaired link between different stages that is dominated.

ghost use Rattle.std.specs.Prelude.{◌≡◌, ℕ, ◌<◌, Decides};
ghost use Rattle.theory.specs.Mates.{unpaired};
ghost use Rattle.graph.specs.Digraphs.{links};
ghost use Rattle.graph.specs.Marks.{linked};
ghost use Rattle.graph.specs.StageSets.{stages, words};
ghost use Rattle.rules.specs.LinkLaws.{dome_lawful};
ghost use Rattle.rules.specs.LinkRules.{DropsLowest, dome_answer};
ghost use Rattle.rules.specs.LinkTests.{DominatedLink, dominated_after, dominated_before, dominated_link, each_in};
ghost use Rattle.rules.specs.Nets.{net};

use crate::action::Action;
use crate::link_search::lowest_link;
use crate::rule::Rule;
use crate::sets::is_empty;
use graph::digraph::Digraph;
use graph::stage_set::StageSet;
use price::price::Price;
use std::array;

/// Drops the lowest unpaired link between different stages that is dominated.
#[derive(Clone, Copy, Debug)]
pub struct Dome;

/// A graph and its unpaired links, with the stages before each stage by all links and by the unpaired ones.
#[derive(Drop)]
struct Sides {
    graph: Digraph,
    unpaired_links: Digraph,
    before: [StageSet; 64],
    unpaired_before: [StageSet; 64],
    ghost are_unpaired: { (a b : ℕ) → links unpaired_links a b ≡ unpaired (links graph) a b },
    ghost are_before: { (v s : ℕ) → linked (words before) v s ≡ links graph s v },
    ghost are_unpaired_before: { (v s : ℕ) → linked (words unpaired_before) v s ≡ links unpaired_links s v },
}

/// The stages before each stage.
fn columns(graph: &Digraph) -> [StageSet; 64]
    ensures { (v s : ℕ) → linked (words result) v s ≡ links graph.now s v }
{
    array::from_fn(
        |v| -> StageSet
            requires { v < 64 }
            ensures { (s : ℕ) → stages result s ≡ links graph.entry.now s v }
        { graph.before(v as u8) },
    )
}

/// The column of a stage, which is empty for a number from 64 on.
fn column(columns: &[StageSet; 64], v: u8) -> StageSet
    ensures { (s : ℕ) → stages result s ≡ linked (words columns.now) v s }
{
    columns
        .get(usize::from(v))
        .copied()
        .unwrap_or(StageSet::empty())
}

/// Whether each stage of a set is in another set.
fn is_within(set: StageSet, other: StageSet) -> bool
    ensures { result ≡ each_in (stages set) (stages other) }
{
    is_empty(set.difference(other))
}

impl Sides {
    /// The sides of a graph.
    fn of(graph: &Digraph) -> Sides
        ensures { result.graph ≡ graph.now }
    {
        let unpaired_links = graph.unpaired();
        Sides {
            graph: *graph,
            unpaired_links,
            before: columns(graph),
            unpaired_before: columns(&unpaired_links),
        }
    }

    /// Whether each stage with an unpaired link to `u` has a link to `v`.
    fn is_dominated_before(&self, u: u8, v: u8) -> bool
        ensures { result ≡ dominated_before (links self.now.graph) u v }
    {
        is_within(column(&self.unpaired_before, u), column(&self.before, v))
    }

    /// Whether each stage with an unpaired link from `v` has a link from `u`.
    fn is_dominated_after(&self, u: u8, v: u8) -> bool
        ensures { result ≡ dominated_after (links self.now.graph) u v }
    {
        is_within(self.unpaired_links.after(v), self.graph.after(u))
    }

    /// Whether the link is unpaired, joins two different stages, and is dominated.
    fn is_dominated(&self, u: u8, v: u8) -> bool
        ensures { result ≡ dominated_link (net self.now.graph) u v }
    {
        self.unpaired_links.is_linked(u, v)
            && u != v
            && (self.is_dominated_before(u, v) || self.is_dominated_after(u, v))
    }
}

/// Whether there is an unpaired link from one stage to another one that is dominated.
pub fn is_dominated(graph: &Digraph, u: u8, v: u8) -> bool
    ensures test { result ≡ dominated_link (net graph.now) u v }
    ensures in_words { Decides result (DominatedLink (net graph.now) u v) }
{
    Sides::of(graph).is_dominated(u, v)
}

impl<P: Price> Rule<P> for Dome {
    ghost answer = { λ r g prices. dome_answer g };

    ghost lawful = { λ r g prices i. dome_lawful P.kind prices g i };

    fn ask(&self, graph: &Digraph, _prices: &[P]) -> Option<Action>
        ensures answer { result ≡ dome_answer (net graph.now) }
        ensures in_words { DropsLowest (DominatedLink (net graph.now)) result }
    {
        let sides = Sides::of(graph);
        lowest_link(|u, v| sides.is_dominated(u, v)).map(|(u, v)| Action::DropLink(u, v))
    }
}
