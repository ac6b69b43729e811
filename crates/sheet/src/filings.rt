//! Count and Memory as they are filed.

ghost use Rattle.sheet.specs.Filings.{count_filing, memory_filing};
ghost use Rattle.std.proofs.Common.{lit≤};

use crate::figures::Figures;
use crate::filed_price::FiledPrice;
use price::count::Count;
use price::memory::Memory;

impl FiledPrice for Count {
    ghost filing = { count_filing };

    ghost narrow = { lit≤ tt };

    fn code() -> u8 {
        0
    }

    fn field_width() -> usize {
        0
    }

    #[tactic(auto, using(price::specs::CountLaws::count_same), unfolding(price::specs::Counts::count))]
    fn of_field(field: &[u8]) -> Count {
        Count::of_stage()
    }

    fn figures(self) -> Figures {
        Figures::One(u64::from(self.holds))
    }
}

impl FiledPrice for Memory {
    ghost filing = { memory_filing };

    ghost narrow = { lit≤ tt };

    fn code() -> u8 {
        1
    }

    fn field_width() -> usize {
        4
    }

    /// A field of four bytes is the stage's KiB, big-endian; any other stands for 0.
    #[tactic(auto, using(price::specs::MemoryLaws::memory_same), unfolding(price::specs::Memories::memory))]
    fn of_field(field: &[u8]) -> Memory {
        Memory::of_stage(<[u8; 4]>::try_from(field).map_or(0, u32::from_be_bytes))
    }

    fn figures(self) -> Figures {
        Figures::Two(self.kib, u64::from(self.holds))
    }
}
