//! Tests of stage sets, digraphs and graphs on small cases.

#![tactic(auto)]

#[cfg(test)]
mod tests;
