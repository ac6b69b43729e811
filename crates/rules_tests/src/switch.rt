//! A rule of one's own: another rule, which can be switched off.

ghost use Rattle.std.specs.Prelude.{None, if◌then◌else◌};
ghost use Rattle.rules_tests.specs.Switched.{switched_lawful};

use graph::digraph::Digraph;
use price::price::Price;
use rules::action::Action;
use rules::rule::Rule;

/// A rule that proposes what another one does while it is on, and nothing while it is off.
#[derive(Clone, Copy, Debug)]
pub struct Switch<R> {
    pub on: bool,
    pub rule: R,
}

impl<P: Price, R: Rule<P>> Rule<P> for Switch<R> {
    ghost answer = { λ s g prices. if s.on then R.answer s.rule g prices else None };

    ghost lawful = { λ s g prices i. switched_lawful P.kind prices g s.on _ (R.lawful s.rule g prices i) };

    fn ask(&self, graph: &Digraph, prices: &[P]) -> Option<Action> {
        if !self.on {
            return None;
        }
        self.rule.ask(graph, prices)
    }
}
