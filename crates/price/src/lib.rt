//! Prices of stages: what a price kind is, two of them, and the cost of a set of stages.

#![tactic(auto)]

pub mod cheapest;
pub mod cost;
pub mod count;
pub mod count_price;
pub mod memory;
pub mod memory_price;
pub mod price;
