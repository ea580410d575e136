// The halving, asked about a plain number over wide ranges; of the solvers `Stairs`, `TreeDue` and `PairDue` halve, too.
ghost use Rattle.std.specs.Prelude.{◌^◌, ◌≤ℤ◌, ⊤};
ghost use Rattle.msp_instance.specs.Conditions.{LiesWithin};
ghost use Rattle.msp_class.proofs.IntegerRing.{≤ℤ_trans};

use msp_class::NoMemory;
use msp_route::{Question, Range, least_in};
use std::alloc::Global;
use std::cell::Cell;

/// Bounds from `least` on are met. It counts how often it is asked.
#[derive(Drop)]
struct FromNumber {
    least: i128,
    count: Cell<u32>,
}

impl Question for FromNumber {
    ghost may_ask = { λ _. ⊤ };

    ghost limit = { λ _. 10 ^ 10 };

    ghost met = { λ q bound. q.least ≤ℤ bound };

    fn ask(&self, _alloc: Global, bound: i128) -> Result<bool, NoMemory> {
        self.count.set(self.count.get().wrapping_add(1));
        Ok(self.least <= bound)
    }

    ghost rises = { λ q a b more met. ≤ℤ_trans met more };
}

/// The least bound of the range that is met, and how many were asked about.
fn searched(alloc: Global, low: i128, high: i128, least: i128) -> Result<(i128, u32), NoMemory>
    requires low { low ≤ℤ least }
    requires high { least ≤ℤ high }
    requires small_low { LiesWithin (10 ^ 10) low }
    requires small_high { LiesWithin (10 ^ 10) high }
{
    let question = FromNumber {
        least,
        count: Cell::new(0),
    };
    let found = least_in(&question, alloc, Range { low, high })?;
    Ok((found, question.count.get()))
}

#[test]
fn wide_ranges_are_halved(rt: HostRuntime) {
    assert!(rt; searched(rt.alloc(), 0, 1000, 347).ok() == Some((347, 11)));
    assert!(rt; searched(rt.alloc(), -1000, 0, -653).ok() == Some((-653, 11)));
    // the one below the greatest is asked about alone
    assert!(rt; searched(rt.alloc(), 0, 1000, 1000).ok() == Some((1000, 1)));
}
