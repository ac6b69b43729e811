//! What every price kind has.

ghost use Rattle.std.specs.Prelude.{◌≡◌};
ghost use Rattle.theory.specs.Prices.{Kind, Lawful};

/// A price kind in code: a value called nothing, a sum, and whether a price is not dearer than another. Its `kind`
/// says what each gives, and an impl owes the proof that the kind is lawful.
pub trait Price: Copy {
    ghost kind: { Kind Self };

    /// The price of no stage.
    fn nothing() -> Self
        ensures { result ≡ kind.nothing };

    /// The sum of two prices.
    fn plus(self, other: Self) -> Self
        ensures { result ≡ kind.plus self other };

    /// Whether this price is not dearer than the other.
    fn not_dearer(self, other: Self) -> bool
        ensures { result ≡ kind.leq self other };

    ghost lawful: { Lawful kind };
}
