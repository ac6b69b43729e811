//! The cost of a set of stages.

ghost use Rattle.std.specs.Prelude.{◌≡◌, length};
ghost use Rattle.theory.specs.Prices.{cost};
ghost use Rattle.graph.specs.StageSets.{stages};
ghost use Rattle.price.specs.Costs.{price_at};

use crate::price::Price;
use graph::stage_set::StageSet;

/// The cost of a set: the sum, from nothing, of the prices of its stages, where stage `s` has the price at place
/// `s`. A stage with no price adds nothing, and a price past the 64th is no stage's.
pub fn cost<P: Price>(prices: &[P], set: StageSet) -> P
    ensures { result ≡ cost P.kind (price_at prices.now P.kind.nothing) (length prices.now) (stages set) }
{
    let mut sum = P::nothing();
    // A plain loop: a `filter` and a `fold` are no shorter, and harder to prove.
    for (s, price) in prices.iter().enumerate() {
        if set.has_index(s) {
            sum = sum.plus(*price);
        }
    }
    sum
}

#[cfg(test)]
mod tests {
    use super::cost;
    use crate::count::Count;
    use crate::memory::Memory;
    use crate::price::Price;
    use graph::stage_set::StageSet;

    #[test]
    fn counts_stop_at_the_largest(rt: HostRuntime) {
        let below = Count {
            holds: 4_294_967_294,
        };
        let largest = below.plus(Count::of_stage());
        assert_eq!(rt; largest.holds, 4_294_967_295);
        assert_eq!(rt; largest.plus(Count::of_stage()).holds, 4_294_967_295);
    }

    #[test]
    fn kib_past_their_width_give_the_largest_pair(rt: HostRuntime) {
        let large = Memory {
            kib: 18_446_744_073_709_551_610,
            holds: 2,
        };
        assert_eq!(rt;
            large.plus(Memory::of_stage(5)),
            Memory {
                kib: 18_446_744_073_709_551_615,
                holds: 3
            }
        );
        assert_eq!(rt;
            large.plus(Memory::of_stage(6)),
            Memory {
                kib: 18_446_744_073_709_551_615,
                holds: 4_294_967_295
            }
        );
    }

    #[test]
    fn holds_stop_while_kib_do_not(rt: HostRuntime) {
        let many = Memory {
            kib: 10,
            holds: 4_294_967_295,
        };
        assert_eq!(rt;
            many.plus(Memory::of_stage(4)),
            Memory {
                kib: 14,
                holds: 4_294_967_295
            }
        );
    }

    #[test]
    fn kib_compare_before_holds(rt: HostRuntime) {
        let small = Memory { kib: 1, holds: 9 };
        let large = Memory { kib: 2, holds: 1 };
        assert!(rt; small.not_dearer(large));
        assert!(rt; !large.not_dearer(small));
        // at equal KiB one hold more is dearer
        assert!(rt; !Memory { kib: 2, holds: 2 }.not_dearer(large));
    }

    #[test]
    fn a_cost_adds_the_stages_of_the_set(rt: HostRuntime) {
        let prices = [
            Memory::of_stage(10),
            Memory::of_stage(20),
            Memory::of_stage(30),
            Memory::of_stage(40),
            Memory::of_stage(50),
        ];
        let set = StageSet::empty().with(0).with(2).with(4);
        // 10 + 30 + 50 KiB, and a hold for each of three stages
        assert_eq!(rt; cost(&prices, set), Memory { kib: 90, holds: 3 });
        assert_eq!(rt;
            cost(&prices, StageSet::empty()),
            Memory { kib: 0, holds: 0 }
        );
    }
}
