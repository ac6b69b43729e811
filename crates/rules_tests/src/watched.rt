//! A rule of one's own, from the trait alone: it looks at one stage.

ghost use Rattle.rules_tests.specs.Watched.{watched_answer, watched_lawful};

use graph::digraph::Digraph;
use price::price::Price;
use rules::action::Action;
use rules::loop_rule::is_self_linked;
use rules::rule::Rule;

/// A rule that holds the stage of its choice where that has a self-link.
#[derive(Clone, Copy, Debug)]
pub struct Watched {
    pub stage: u8,
}

impl<P: Price> Rule<P> for Watched {
    ghost answer = { λ r g prices. watched_answer g r.stage };

    ghost lawful = { λ r g prices i. watched_lawful P.kind P.lawful prices g i r.stage };

    fn ask(&self, graph: &Digraph, _prices: &[P]) -> Option<Action> {
        is_self_linked(graph, self.stage).then_some(Action::Hold(self.stage))
    }
}
