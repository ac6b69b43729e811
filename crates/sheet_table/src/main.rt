//! Reads a table of sheets from its standard input, and writes a line with the outcome of each.

#![tactic(auto)]

use self::case::Case;
use self::outcome::outcome;
use std::io::{BufRead, BufReader};

mod case;
mod outcome;

/// Writes the line for a line of the table: none for an empty one and for a comment.
fn answer(rt: &HostRuntime, line: &str) -> anyhow::Result<()> {
    let line = line.trim();
    if line.is_empty() || line.starts_with('#') {
        return Ok(());
    }
    let case = Case::parse(rt.alloc(), line)?;
    let outcome = outcome(rt.alloc(), &case)?;
    println!(rt; "{} {outcome}", case.label)?;
    Ok(())
}

fn main(rt: HostRuntime) -> anyhow::Result<()> {
    for line in BufReader::new(rt.alloc(), rt.stdin())?.lines(rt.alloc()) {
        answer(&rt, line?.as_str())?;
    }
    Ok(())
}
