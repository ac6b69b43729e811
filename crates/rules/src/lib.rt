//! Rules that shrink a graph: what a rule is, piles of rules, and eight rules, on single stages and on links.

#![tactic(auto)]

pub mod action;
pub mod core_rule;
pub mod dome;
pub mod full_pile;
pub mod in0;
pub mod in1;
pub mod lawful;
mod link_search;
pub mod loop_rule;
pub mod out0;
pub mod out1;
pub mod pie;
pub mod pile;
mod prices;
pub mod rule;
mod search;
mod sets;
