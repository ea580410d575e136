// Reductions: rows of the table that carry instances and schedules.
ghost use Rattle.std.specs.Prelude.{◌≡◌, ℕ, IfOk, IsTrue};
ghost use Rattle.msp_instance.specs.declared.Instance.{Instance as Inst};
ghost use Rattle.msp_instance.specs.Conditions.{Inner};
ghost use Rattle.msp_pieces.specs.declared.Schedule.{Schedule};
ghost use Rattle.msp_pieces.specs.Cost.{IsSolution};
ghost use Rattle.msp_table.specs.Rows.{carries};
ghost use Rattle.msp_route.specs.Law.{Rate, Applies, IsLower, IsPositive, IsForth, IsBack, IsReordered};
ghost use Rattle.msp_route.specs.Bounds.{IsBounded, KeepsBounds};
ghost use Rattle.msp_route.specs.Rates.{rate_of};

use msp_class::NoMemory;
use msp_instance::Instance;
use msp_pieces::Solution;
use msp_table::Row;
use std::alloc::Global;

/// A row of the table that carries instances of a class to instances of the class to which it leads, and schedules back.
pub trait Reduction {
    /// The number of the row.
    ghost number: { Self → ℕ };

    /// The instance of the class to which the row leads.
    ghost lower_of: { Self → Inst → Inst };

    /// How costs are translated.
    ghost rate: { Self → Inst → Rate };

    /// A schedule of the lower instance for one of the upper, and one of the upper for one of the lower.
    ghost forth: { Self → Inst → Schedule → Schedule };

    ghost upper: { Self → Inst → Schedule → Schedule };

    /// The row.
    fn row(&self) -> Row
        ensures row { result ≡ number self.now }
        ensures carries { IsTrue (carries (number self.now)) };

    /// The lower instance.
    fn down(&self, alloc: Global, inst: &Instance) -> Result<Instance, NoMemory>
        requires inner { Inner inst.now }
        requires applies { Applies (number self.now) inst.now }
        ensures { IfOk result (λ j. j ≡ lower_of self.now inst.now) };

    /// A solution of the instance from one of the lower instance.
    fn back(&self, alloc: Global, inst: &Instance, lower: Solution) -> Result<Solution, NoMemory>
        requires inner { Inner inst.now }
        requires applies { Applies (number self.now) inst.now }
        requires solution { IsSolution (lower_of self.now inst.now) lower }
        requires bounded { IsBounded (lower_of self.now inst.now) lower.schedule }
        ensures solution { IfOk result (λ s. IsSolution inst.now s) }
        ensures law { IfOk result (λ s. IsBack (rate self.now inst.now) inst.now (lower_of self.now inst.now) lower.schedule s.schedule) }
        ensures same { IfOk result (λ s. IsReordered (upper self.now inst.now lower.schedule) s.schedule) }
        ensures bounds { IfOk result (λ s. KeepsBounds (number self.now) inst.now (lower_of self.now inst.now) lower.schedule s.schedule) };

    /// The lower instance is an inner one of the class to which the row leads.
    ghost lower_is: { (self : Self) (i : Inst) → Inner i → Applies (number self) i → IsLower (number self) i (lower_of self i) };

    /// Costs are translated as the table says for the row, by positive numbers.
    ghost rate_of_row: { (self : Self) (i : Inst) → rate self i ≡ rate_of (number self) i };

    ghost rate_is: { (self : Self) (i : Inst) → Inner i → Applies (number self) i → IsPositive (rate self i) };

    /// Each half of the law: a feasible schedule of either instance gives one of the other, and what it costs.
    ghost forth_is: { (self : Self) (i : Inst) (s : Schedule) → Inner i → Applies (number self) i → IsForth (rate self i) i (lower_of self i) s (forth self i s) };

    ghost back_is: { (self : Self) (i : Inst) (s : Schedule) → Inner i → Applies (number self) i → IsBack (rate self i) i (lower_of self i) s (upper self i s) };
}
