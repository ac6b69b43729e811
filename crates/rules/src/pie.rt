//! PIE: drop an unpaired link between different stages that lies on no loop of unpaired links.

ghost use Rattle.std.specs.Prelude.{◌≡◌, not, ◌&&◌, ◌==◌, Decides};
ghost use Rattle.graph.specs.Digraphs.{links};
ghost use Rattle.rules.specs.LinkLaws.{pie_lawful};
ghost use Rattle.rules.specs.LinkRules.{DropsLowest, pie_answer};
ghost use Rattle.rules.specs.LinkTests.{OffUnpairedLoop, off_unpaired_loop};
ghost use Rattle.rules.specs.Nets.{net};

use crate::action::Action;
use crate::link_search::lowest_link;
use crate::rule::Rule;
use graph::digraph::Digraph;
use price::price::Price;

/// Drops the lowest unpaired link between different stages that lies on no loop of unpaired links.
#[derive(Clone, Copy, Debug)]
pub struct Pie;

/// Whether an unpaired link leads from one stage to another one, and no walk of unpaired links leads back.
fn leads_away(unpaired: &Digraph, reach: &Digraph, u: u8, w: u8) -> bool
    ensures { result ≡ (links unpaired.now u w && not (u == w) && not (links reach.now w u)) }
{
    unpaired.is_linked(u, w) && u != w && !reach.is_linked(w, u)
}

/// Whether there is an unpaired link from one stage to another one, on no loop of unpaired links.
pub fn is_off_unpaired_loops(graph: &Digraph, u: u8, w: u8) -> bool
    ensures test { result ≡ off_unpaired_loop (net graph.now) u w }
    ensures in_words { Decides result (OffUnpairedLoop (net graph.now) u w) }
{
    let unpaired = graph.unpaired();
    leads_away(&unpaired, &unpaired.reach(), u, w)
}

impl<P: Price> Rule<P> for Pie {
    ghost answer = { λ r g prices. pie_answer g };

    ghost lawful = { λ r g prices i. pie_lawful P.kind prices g i };

    fn ask(&self, graph: &Digraph, _prices: &[P]) -> Option<Action>
        ensures answer { result ≡ pie_answer (net graph.now) }
        ensures in_words { DropsLowest (OffUnpairedLoop (net graph.now)) result }
    {
        let unpaired = graph.unpaired();
        let reach = unpaired.reach();
        lowest_link(|u, w| leads_away(&unpaired, &reach, u, w)).map(|(u, w)| Action::DropLink(u, w))
    }
}
