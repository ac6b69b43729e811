//! The figures of a price, for people.

ghost use Rattle.std.specs.Prelude.{Some};
ghost use Rattle.sheet.specs.FigureTexts.{figures_text};

use std::fmt;

/// What is printed of a price: one figure or two.
#[derive(Clone, Copy, Debug, PartialEq, Eq, Hash)]
pub enum Figures {
    One(u64),
    Two(u64, u64),
}

/// The figures in decimal, with a space between two.
impl fmt::Display for Figures {
    ghost output = { λ figures. Some (figures_text figures) };

    fn fmt<W: fmt::Write>(&self, f: &mut fmt::Formatter<W>) -> fmt::Result {
        match *self {
            Figures::One(a) => write!(f, "{a}"),
            Figures::Two(a, b) => write!(f, "{a} {b}"),
        }
    }
}
