//! Prices that count memory first and then stages.

ghost use Rattle.std.specs.Prelude.{◌≡◌, ◌^◌, ◌<◌};

/// An amount of memory in KiB, 64 bits wide, and a number of held stages, 32 bits wide. Prices compare by the fields in
/// this order: KiB, then holds.
#[derive(Clone, Copy, Debug, PartialEq, Eq, PartialOrd, Ord, Hash)]
pub struct Memory {
    pub kib: u64,
    pub holds: u32,
    ghost wide: { kib < 2 ^ 64 },
    ghost few: { holds < 2 ^ 32 },
}

impl Memory {
    /// The price of a stage: its KiB and one hold.
    pub fn of_stage(kib: u32) -> Memory
        ensures amount { result.kib ≡ kib }
        ensures one_hold { result.holds ≡ 1 }
    {
        Memory {
            kib: u64::from(kib),
            holds: 1,
        }
    }
}
