//! Prices of stages, as rules compare them.

ghost use Rattle.std.specs.Prelude.{◌≡◌};
ghost use Rattle.rules.specs.NeighbourTests.{not_dearer};

use price::price::Price;

/// Whether stage `u` is not dearer than stage `v`. A price that the table lacks counts as nothing.
pub(crate) fn is_not_dearer<P: Price>(prices: &[P], u: u8, v: u8) -> bool
    ensures { result ≡ not_dearer P.kind prices.now u v }
{
    let price = |s: u8| prices.get(usize::from(s)).copied().unwrap_or(P::nothing());
    price(u).not_dearer(price(v))
}
