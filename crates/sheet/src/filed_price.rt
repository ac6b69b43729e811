//! What a price kind needs to be filed in a sheet.

ghost use Rattle.std.specs.Prelude.{◌≡◌, ◌≤◌};
ghost use Rattle.sheet.specs.Filings.{Filing};

use crate::figures::Figures;
use price::price::Price;

/// A price kind that a sheet can file. Its `filing` says what each function gives; a field has at most 16 bytes.
pub trait FiledPrice: Price {
    ghost filing: { Filing Self };

    /// The code by which a sheet names the kind: a number and no enum, since a studio files kinds of its own.
    fn code() -> u8
        ensures { result ≡ filing.code };

    /// How many bytes a price field has.
    fn field_width() -> usize
        ensures { result ≡ filing.width };

    /// The price that a field stands for.
    fn of_field(field: &[u8]) -> Self
        ensures { result ≡ filing.price_of field.now };

    /// The figures to print.
    fn figures(self) -> Figures
        ensures { result ≡ filing.figures_of self };

    ghost narrow: { filing.width ≤ 16 };
}
