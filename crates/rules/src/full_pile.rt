//! The full pile: the eight rules in their order.

ghost use Rattle.std.specs.Prelude.{◌≡◌};
ghost use Rattle.rules.specs.FullPile.{full_answer};
ghost use Rattle.rules.specs.Nets.{net};

use crate::action::Action;
use crate::core_rule::Core;
use crate::dome::Dome;
use crate::in0::In0;
use crate::in1::In1;
use crate::loop_rule::Loop;
use crate::out0::Out0;
use crate::out1::Out1;
use crate::pie::Pie;
use crate::pile::Pair;
use crate::rule::Rule;
use graph::digraph::Digraph;
use price::price::Price;

/// The eight rules in the order in which they are asked.
pub type Full = Pair<
    Loop,
    Pair<In0, Pair<Out0, Pair<In1, Pair<Out1, Pair<Pie, Pair<Core, Dome>>>>>>,
>;

/// The full pile.
pub const FULL: Full = Pair {
    first: Loop,
    second: Pair {
        first: In0,
        second: Pair {
            first: Out0,
            second: Pair {
                first: In1,
                second: Pair {
                    first: Out1,
                    second: Pair {
                        first: Pie,
                        second: Pair {
                            first: Core,
                            second: Dome,
                        },
                    },
                },
            },
        },
    },
};

/// What the full pile proposes: the first of its rules' answers, in their order.
pub fn ask_full_pile<P: Price>(graph: &Digraph, prices: &[P]) -> Option<Action>
    ensures first_in_order { result ≡ full_answer P.kind prices.now (net graph.now) }
{
    FULL.ask(graph, prices)
}
