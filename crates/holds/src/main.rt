//! `holds`: reads a graph sheet from standard input and prints its refusal, or what is known of its plan.

#![tactic(auto)]

use report::report::report;
use sheet::frame::MOST_BYTES;
use std::io;
use std::io::{Read, Write};

/// The most bytes that are read: one more than a sheet may have, so that a longer one is seen to be too long.
const MOST_READ: u64 = MOST_BYTES as u64 + 1;

fn main(rt: HostRuntime) -> io::Result<()> {
    let mut sheet = Vec::new(rt.alloc());
    rt.stdin().take(MOST_READ).read_to_end(&mut sheet)?;
    let text = report(rt.alloc(), sheet.as_slice())?;
    rt.stdout().write_all(text.as_slice())
}
