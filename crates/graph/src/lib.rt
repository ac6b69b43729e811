//! Stage sets, digraphs and graphs of at most 64 stages, and the faults that edits return.

#![tactic(auto)]

pub mod digraph;
pub mod fault;
pub mod graph;
pub mod plans;
pub mod stage_set;
