//! What a lawful rule answers: no code, a theorem in the contract.

ghost use Rattle.rules.specs.Actions.{Allowed};
ghost use Rattle.rules.specs.Nets.{net};

use crate::rule::Rule;
use graph::digraph::Digraph;
use price::price::Price;

/// Whatever graph and prices a rule is asked about, its answer is allowed.
pub fn answers_are_allowed<P: Price, R: Rule<P>>(rule: &R, graph: &Digraph, prices: &[P])
    ensures { Allowed P.kind prices.now (net graph.now) (R.answer rule.now (net graph.now) prices.now) }
{}
