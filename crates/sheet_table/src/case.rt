//! The lines of the table.

use anyhow::{Context, bail};
use sheet::kind::Kind;
use std::alloc::Global;

/// A line of the table: a sheet, the kind that it is read as and how many prices there is room for.
#[derive(Drop)]
pub struct Case<'a> {
    pub label: &'a str,
    pub kind: Kind,
    pub room: usize,
    pub sheet: Vec<u8>,
}

/// What a hexadecimal digit stands for: capitals alone, where the conversions of the library take small letters too.
fn digit(b: u8) -> anyhow::Result<u8> {
    match b {
        b'0'..=b'9' => Ok(b - b'0'),
        b'A'..=b'F' => Ok(b - b'A' + 10),
        _ => bail!("no hexadecimal digit"),
    }
}

/// Adds the bytes that pairs of hexadecimal digits stand for.
fn add_bytes(sheet: &mut Vec<u8>, hex: &str) -> anyhow::Result<()> {
    for pair in hex.as_bytes().chunks(2) {
        let [high, low] = pair else {
            bail!("an odd number of digits");
        };
        sheet.push(digit(*high)? << 4 | digit(*low)?)?;
    }
    Ok(())
}

/// Adds the bytes of a run, `COUNT:HEX`.
fn add_run(sheet: &mut Vec<u8>, run: &str) -> anyhow::Result<()> {
    let (count, hex) = run.split_once(':').context("a run with no colon")?;
    for _ in 0..count.parse::<u16>()? {
        add_bytes(sheet, hex)?;
    }
    Ok(())
}

impl<'a> Case<'a> {
    /// The case of a line: a label, then words that give the sheet, the kind and the room.
    pub(crate) fn parse(heap: Global, line: &'a str) -> anyhow::Result<Case<'a>> {
        let mut words = line.split_whitespace();
        let label = words.next().unwrap_or_default();
        let mut named = None;
        let mut room = 64;
        let mut sheet = Vec::new(heap);
        for word in words {
            if let Some(count) = word.strip_prefix("prices=") {
                room = count.parse::<usize>()?;
            } else if let Some(name) = word.strip_prefix("as=") {
                named = Some(name.parse::<Kind>()?);
            } else if let Some(run) = word.strip_prefix('*') {
                add_run(&mut sheet, run)?;
            } else {
                add_bytes(&mut sheet, word)?;
            }
        }
        let kind = named.unwrap_or_else(|| Kind::of_sheet(&sheet));
        Ok(Case {
            label,
            kind,
            room,
            sheet,
        })
    }
}
