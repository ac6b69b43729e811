//! Piles of rules.

ghost use Rattle.std.specs.Prelude.{◌≡◌, None};
ghost use Rattle.std.specs.Option.{option_or};
ghost use Rattle.rules.specs.Piles.{first_allowed};

use crate::action::Action;
use crate::rule::Rule;
use graph::digraph::Digraph;
use price::price::Price;

/// The pile of no rules, which proposes nothing.
#[derive(Clone, Copy, Debug)]
pub struct Empty;

impl<P: Price> Rule<P> for Empty {
    ghost answer = { λ r g prices. None };

    ghost lawful = { λ r g prices i. tt };

    fn ask(&self, _graph: &Digraph, _prices: &[P]) -> Option<Action> {
        None
    }
}

/// The pile of two rules: what the first proposes, or if it proposes nothing, what the second does. A pile is itself
/// a rule, so pairs make piles of any height.
#[derive(Clone, Copy, Debug)]
pub struct Pair<A, B> {
    pub first: A,
    pub second: B,
}

impl<P: Price, A: Rule<P>, B: Rule<P>> Rule<P> for Pair<A, B> {
    ghost answer = { λ r g prices. option_or (A.answer r.first g prices) (B.answer r.second g prices) };

    ghost lawful = { λ r g prices i. first_allowed P.kind prices g _ _ (A.lawful r.first g prices i) (B.lawful r.second g prices i) };

    fn ask(&self, graph: &Digraph, prices: &[P]) -> Option<Action> {
        self.first
            .ask(graph, prices)
            .or_else(|| self.second.ask(graph, prices))
    }
}
