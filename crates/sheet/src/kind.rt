//! The price kinds that this repository has, and how a sheet or a text names them.

ghost use Rattle.std.specs.Prelude.{◌≡◌, Some, codes};
ghost use Rattle.sheet.specs.Kinds.{Names, kind_of};

use crate::filed_price::FiledPrice;
use price::memory::Memory;
use std::error::Error;
use std::fmt;
use std::str::FromStr;

/// The price kind that a sheet is read as.
#[derive(Clone, Copy, Debug, PartialEq, Eq, Hash)]
pub enum Kind {
    Count,
    Memory,
}

impl Kind {
    /// The kind that a sheet's byte 3 names: Memory if it is 1, and else Count.
    pub fn of_sheet(sheet: &[u8]) -> Kind
        ensures { result ≡ kind_of sheet.now }
    {
        match sheet {
            [_, _, _, code, ..] if *code == Memory::code() => Kind::Memory,
            _ => Kind::Count,
        }
    }
}

/// A text that names no kind.
#[derive(Clone, Copy, Debug, PartialEq, Eq, Hash)]
pub struct UnknownKind;

/// Reads a kind's name, in small letters.
impl FromStr for Kind {
    type Err = UnknownKind;

    ghost from_str_gives = { Names };

    fn from_str(name: &str) -> Result<Kind, UnknownKind> {
        match name {
            "count" => Ok(Kind::Count),
            "memory" => Ok(Kind::Memory),
            _ => Err(UnknownKind),
        }
    }
}

impl fmt::Display for UnknownKind {
    ghost output = { λ _. Some (codes "no such kind") };

    fn fmt<W: fmt::Write>(&self, f: &mut fmt::Formatter<W>) -> fmt::Result {
        f.write_str("no such kind")
    }
}

impl Error for UnknownKind {}
