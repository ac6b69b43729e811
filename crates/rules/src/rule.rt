//! What every rule has.

ghost use Rattle.std.specs.Prelude.{◌≡◌, Option, List};
ghost use Rattle.rules.specs.declared.action.Action.{Action};
ghost use Rattle.rules.specs.Actions.{Allowed};
ghost use Rattle.rules.specs.Nets.{Inside, Net, net};

use crate::action::Action;
use graph::digraph::Digraph;
use price::price::Price;

/// A rule at a price kind: asked about a graph and the prices of its stages, it proposes an action or none. Its
/// `answer` says which, and an impl owes the proof that each answer is allowed.
pub trait Rule<P: Price> {
    ghost answer: { Self → Net → List P → Option Action };

    /// The action that it proposes for this graph at these prices, which are one a stage, by number: a list may have any
    /// length, and a stage without a price there costs nothing. It refuses nothing and changes nothing.
    fn ask(&self, graph: &Digraph, prices: &[P]) -> Option<Action>
        ensures { result ≡ answer self.now (net graph.now) prices.now };

    ghost lawful: { (r : Self) (g : Net) (prices : List P) → Inside g → Allowed P.kind prices g (answer r g prices) };
}
