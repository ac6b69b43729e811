//! Cheapest breaking sets at any price kind: no code, a theorem in the contract.

ghost use Rattle.theory.specs.Cheapest.{AddingMakesNoSetCheaper, CheapestSetExists, SwapMakesNoSetDearer};

use crate::price::Price;

/// At every lawful price kind, a graph has a cheapest breaking set; a stage that is not dearer, put in the place of a
/// stage of the set, makes no set dearer; and one stage more makes no set cheaper.
pub fn cheapest_sets<P: Price>()
    ensures exists { CheapestSetExists P.kind }
    ensures swap { SwapMakesNoSetDearer P.kind }
    ensures adding { AddingMakesNoSetCheaper P.kind }
{}
