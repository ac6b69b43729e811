//! The frame of a sheet: version, count and price kind.

ghost use Rattle.std.specs.Prelude.{◌≡◌};
ghost use Rattle.sheet_format.specs.Reading.{frame_of, is_sized};

use graph::fault::{Cause, Fault, Layer};

/// The version that byte 0 gives.
const VERSION: u8 = 1;

/// The bytes of a frame, the least that a sheet may have: version, count and price kind. Records follow.
pub const FRAME_BYTES: usize = 4;

/// The most bytes that a sheet may have.
pub const MOST_BYTES: usize = 20_000;

/// Whether a sheet has from 4 to 20,000 bytes, of which bytes 1 and 2 count those after byte 2.
fn is_sized(sheet: &[u8]) -> bool
    ensures { result ≡ is_sized sheet.now }
{
    let [_, high, low, counted @ ..] = sheet else {
        return false;
    };
    (FRAME_BYTES..=MOST_BYTES).contains(&sheet.len())
        && usize::from(u16::from_be_bytes([*high, *low])) == counted.len()
}

/// Checks the frame of a sheet, for the price kind with this code.
pub fn check_frame(sheet: &[u8], code: u8) -> Result<(), Fault>
    ensures { result ≡ frame_of code sheet.now }
{
    if !matches!(sheet, [VERSION, ..]) {
        return Err(Fault::new(Cause::Version, Layer::Frame, 0));
    }
    if !is_sized(sheet) {
        return Err(Fault::new(Cause::Size, Layer::Frame, 1));
    }
    match sheet {
        [_, _, _, kind, ..] if *kind == code => Ok(()),
        _ => Err(Fault::new(Cause::Kind, Layer::Frame, 3)),
    }
}
