//! The stages of a sheet, one after another.

ghost use Rattle.std.specs.Prelude.{◌≡◌, ◌≤◌, length, IfOk, Ok};
ghost use Rattle.std.specs.Iterator.{YieldsFirstBy, item_count};
ghost use Rattle.sheet_format.specs.Layout.{Contents};
ghost use Rattle.sheet.specs.Readings.{Reads};
ghost use Rattle.sheet.specs.Stages.{StagesOf, plain_stage, stages_answer, stages_left, stages_of};

use crate::filed_price::FiledPrice;
use crate::reader::Reader;
use crate::record::{Entry, Stage};
use graph::fault::Fault;

/// The stages of a sheet, in their order, up to its end or its first faulty record.
#[derive(Drop)]
pub struct Stages<'a> {
    reader: Reader<'a>,
}

impl<'a> Stages<'a> {
    /// The stages of a sheet whose frame is good, for the price kind `P`.
    pub fn open<P: FiledPrice>(sheet: &'a [u8]) -> Result<Stages<'a>, Fault>
        ensures stages { stages_answer result ≡ stages_of P.filing.code P.filing.width sheet.now }
        ensures in_words { (c : Contents) → Reads P.filing sheet.now c → StagesOf c result }
        // No more stages come than the sheet has bytes, so a count of them fits a usize.
        ensures few { IfOk result (λ s. length (stages_left s) ≤ length sheet.now) }
    {
        let reader = Reader::open::<P>(sheet)?;
        Ok(Stages { reader })
    }
}

impl<'a> Iterator for Stages<'a> {
    type Item = Stage<'a>;

    ghost next_gives = { YieldsFirstBy plain_stage stages_left };

    ghost remaining = { item_count stages_left };

    fn next(&mut self) -> Option<Stage<'a>> {
        while let Some(record) = self.reader.next().ok().flatten() {
            if let Entry::Stage(stage) = record.entry {
                return Some(stage);
            }
        }
        None
    }
}
