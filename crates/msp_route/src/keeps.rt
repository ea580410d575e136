// Rows over which schedules stay as they are, at the same costs.
ghost use Rattle.std.specs.Prelude.{◌≡◌, ℕ, IfOk};
ghost use Rattle.msp_instance.specs.declared.Instance.{Instance as Inst};
ghost use Rattle.msp_instance.specs.Conditions.{Inner};
ghost use Rattle.msp_route.specs.Law.{Applies};
ghost use Rattle.msp_route.specs.Changes.{led, same_costs};
ghost use Rattle.msp_route.specs.Stays.{CarriesSame};
ghost use Rattle.msp_route.specs.laws.Stays.{IsPositive-same, rate-kept, IsForth-stays, IsBack-stays};

use crate::copies::led;
use crate::reduction::Reduction;
use msp_class::NoMemory;
use msp_instance::Instance;
use msp_pieces::Solution;
use msp_table::Row;
use std::alloc::Global;

/// A row that changes data, and carries the same schedules at the same costs.
pub trait KeepsSchedules {
    /// The number of the row.
    const NUMBER: u8;

    ghost NUMBER: { ℕ };

    /// The lower instance.
    ghost lower_of: { Inst → Inst };

    fn lead(alloc: Global, inst: &Instance) -> Result<Instance, NoMemory>
        requires inner { Inner inst.now }
        requires applies { Applies NUMBER inst.now }
        ensures { IfOk result (λ j. j ≡ lower_of inst.now) };

    /// Each schedule stays as it is, from whatever instance the row applies to.
    ghost law: { CarriesSame NUMBER lower_of };
}

/// A row that keeps all data: an instance changes its class alone, and the row carries the same schedules at the same costs.
pub trait KeepsData {
    /// The number of the row.
    const NUMBER: u8;

    ghost NUMBER: { ℕ };

    /// Each schedule stays as it is, from whatever instance the row applies to.
    ghost law: { CarriesSame NUMBER (led NUMBER) };
}

impl<T: KeepsData> KeepsSchedules for T {
    const NUMBER: u8 = <T as KeepsData>::NUMBER;

    ghost NUMBER = { T.NUMBER };

    ghost lower_of = { led T.NUMBER };

    fn lead(alloc: Global, inst: &Instance) -> Result<Instance, NoMemory> {
        led(alloc, inst, Row::new(T::NUMBER).unwrap())
    }

    ghost law = { T.law };
}

impl<T: KeepsSchedules> Reduction for T {
    ghost number = { λ self. T.NUMBER };

    ghost lower_of = { λ self. T.lower_of };

    ghost rate = { λ self i. same_costs };

    ghost forth = { λ self i s. s };

    ghost upper = { λ self i s. s };

    fn row(&self) -> Row {
        Row::new(T::NUMBER).unwrap()
    }

    fn down(&self, alloc: Global, inst: &Instance) -> Result<Instance, NoMemory> {
        T::lead(alloc, inst)
    }

    fn back(&self, _: Global, _inst: &Instance, lower: Solution) -> Result<Solution, NoMemory> {
        Ok(lower)
    }

    ghost lower_is = { λ self i inner applies. (T.law.stay i inner applies).leads };

    ghost rate_of_row = { λ self i. rate-kept T.NUMBER i T.law.kept };

    ghost rate_is = { λ self i inner applies. IsPositive-same };

    ghost forth_is = { λ self i s inner applies. IsForth-stays (T.law.stay i inner applies) s };

    ghost back_is = { λ self i s inner applies. IsBack-stays (T.law.stay i inner applies) s };
}
