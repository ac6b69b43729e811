//! What a record's tag byte and body say.

ghost use Rattle.std.specs.Prelude.{◌≡◌, ◌+◌, ◌^◌, ◌<◌, ◌≤◌, ◌&&◌, length, IfOk, nat_le};
ghost use Rattle.sheet_format.specs.Entries.{printable};
ghost use Rattle.sheet_format.specs.Reading.{entry_of, formed_or, stage_of, is_stage};
ghost use Rattle.sheet.specs.Records.{EntryPlaced, entry_answer};

use crate::record::{Entry, Name, Stage};
use graph::fault::{Cause, Fault, Layer};

/// The most bytes that a name may have.
const LONGEST_NAME: usize = 32;

/// Whether a name may have this byte: hexadecimal 21 to 7E.
fn is_name_byte(b: u8) -> bool
    ensures { result ≡ (nat_le 0x21 b && nat_le b 0x7E) }
{
    matches!(b, 0x21..=0x7E)
}

/// Whether a name may have each of these bytes.
fn is_printable(name: &[u8]) -> bool
    ensures { result ≡ printable name.now }
{
    name.iter().all(|b| is_name_byte(*b))
}

/// The stage in the body of a stage record, whose tag byte stands at `place`.
fn stage_of<'a>(rest: &'a [u8], width: usize, place: usize) -> Result<Entry<'a>, Fault>
    requires { place + length rest.now < 2 ^ 64 }
    ensures entry { entry_answer result ≡ formed_or (stage_of (is_stage width rest.now) width rest.now) place }
    ensures name { IfOk result (λ e. EntryPlaced e (place + 1 + width)) }
{
    let fault = Fault::new(Cause::RecordBody, Layer::Record, place);
    let (field, bytes) = rest.split_at_checked(width).ok_or(fault)?;
    if bytes.is_empty() || bytes.len() > LONGEST_NAME || !is_printable(bytes) {
        return Err(fault);
    }
    let name = Name {
        bytes,
        place: place + 1 + width,
    };
    Ok(Entry::Stage(Stage { field, name }))
}

/// What a record's tag byte and body say, where the tag byte stands at `place`.
pub(crate) fn entry_in<'a>(body: &'a [u8], width: usize, place: usize) -> Result<Entry<'a>, Fault>
    requires { place + length body.now ≤ 2 ^ 64 }
    ensures entry { entry_answer result ≡ formed_or (entry_of width body.now) place }
    ensures name { IfOk result (λ e. EntryPlaced e (place + 1 + width)) }
{
    // The tag bytes, as the format writes them: 1 is a stage, 2 a link, 3 a live mark.
    match body {
        [1, rest @ ..] => stage_of(rest, width, place),
        [2, from, to] => Ok(Entry::Link(*from, *to)),
        [3, stage] => Ok(Entry::Live(*stage)),
        _ => Err(Fault::new(Cause::RecordBody, Layer::Record, place)),
    }
}
