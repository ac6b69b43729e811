//! Tests of the rules on small graphs, and two examples of a rule of one's own.

#![tactic(auto)]

pub mod switch;
#[cfg(test)]
mod tests;
pub mod watched;
