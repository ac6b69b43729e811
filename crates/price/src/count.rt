//! Prices that count stages.

ghost use Rattle.std.specs.Prelude.{◌≡◌, ◌^◌, ◌<◌};

/// A number of held stages, from 0 to 4,294,967,295.
#[derive(Clone, Copy, Debug, PartialEq, Eq, PartialOrd, Ord, Hash)]
pub struct Count {
    pub holds: u32,
    ghost fits: { holds < 2 ^ 32 },
}

impl Count {
    /// The price of any stage: one hold.
    pub fn of_stage() -> Count
        ensures { result.holds ≡ 1 }
    {
        Count { holds: 1 }
    }
}
