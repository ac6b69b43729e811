//! Graph sheets: prices that a sheet can file, and reading a sheet's frame, records and graph.

#![tactic(auto)]

pub mod figures;
pub mod filed_price;
pub mod filings;
pub mod frame;
pub mod kind;
pub mod reader;
pub mod reading;
pub mod record;
pub mod stages;
