//! What `holds` prints of a sheet, as bytes.

#![tactic(auto)]

mod names;
pub mod report;
