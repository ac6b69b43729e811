//! The records of a sheet.

/// A stage's name: a part of the sheet, and the place of its first byte there.
#[derive(Clone, Copy, Debug, PartialEq, Eq)]
pub struct Name<'a> {
    pub bytes: &'a [u8],
    pub place: usize,
}

/// A stage: the price field and the name that its record gives it.
#[derive(Clone, Copy, Debug, PartialEq, Eq)]
pub struct Stage<'a> {
    pub field: &'a [u8],
    pub name: Name<'a>,
}

/// What a record says: a stage, a link from one stage to another, or a live mark.
#[derive(Clone, Copy, Debug, PartialEq, Eq)]
pub enum Entry<'a> {
    Stage(Stage<'a>),
    Link(u8, u8),
    Live(u8),
}

/// A record, with the place of its tag byte in the sheet.
#[derive(Clone, Copy, Debug, PartialEq, Eq)]
pub struct Record<'a> {
    pub entry: Entry<'a>,
    pub place: usize,
}
