//! A reader over the records of a sheet.

ghost use Rattle.sheet_format.specs.Reading.{frame_of};
ghost use Rattle.sheet.specs.Records.{Opened, Steps};

use self::entries::entry_in;
use crate::filed_price::FiledPrice;
use crate::frame::{FRAME_BYTES, check_frame};
use crate::record::Record;
use graph::fault::{Cause, Fault, Layer};

mod entries;

/// A reader that borrows a sheet and yields its records one after another. The next one begins at `at`, a place
/// and not the rest of the sheet, since faults and names are told by places; `width` is the width of a price field.
#[derive(Drop)]
pub struct Reader<'a> {
    sheet: &'a [u8],
    at: usize,
    width: usize,
}

impl<'a> Reader<'a> {
    /// A reader at the first record of a sheet whose frame is good, for the price kind `P`.
    pub fn open<P: FiledPrice>(sheet: &'a [u8]) -> Result<Reader<'a>, Fault>
        ensures { Opened (frame_of P.filing.code sheet.now) sheet.now P.filing.width result }
    {
        check_frame(sheet, P::code())?;
        Ok(Reader {
            sheet,
            at: FRAME_BYTES,
            width: P::field_width(),
        })
    }

    /// The next record, none at the sheet's end; a faulty one is refused, and the reader stays before it.
    pub fn next(&mut self) -> Result<Option<Record<'a>>, Fault>
        ensures { Steps self.old self.new result }
    {
        let sheet = self.sheet;
        let at = self.at;
        if at >= sheet.len() {
            return Ok(None);
        }
        let len = sheet[at] as usize;
        if len == 0 || len > sheet.len() - at - 1 {
            return Err(Fault::new(Cause::RecordLength, Layer::Record, at));
        }
        let place = at + 1;
        let entry = entry_in(&sheet[place..place + len], self.width, place)?;
        self.at = place + len;
        Ok(Some(Record { entry, place }))
    }
}
