// Questions asked of bounds.
ghost use Rattle.std.specs.Prelude.{◌↔◌, ℕ, ℤ, ◌≤ℤ◌, IfOk, IsTrue};
ghost use Rattle.msp_instance.specs.Conditions.{LiesWithin};

use msp_class::NoMemory;
use std::alloc::Global;

/// Whether a bound is met. Where one is, each greater one is.
pub trait Question {
    /// The question may be asked.
    ghost may_ask: { Self → Type 0 };

    /// The most, in size, of a bound that it may be asked of.
    ghost limit: { Self → ℕ };

    /// The bound is met.
    ghost met: { Self → ℤ → Type 0 };

    /// Whether the bound is met.
    fn ask(&self, alloc: Global, bound: i128) -> Result<bool, NoMemory>
        requires asked { may_ask self.now }
        requires bound { LiesWithin (limit self.now) bound }
        ensures { IfOk result (λ is_met. IsTrue is_met ↔ met self.now bound) };

    /// Greater bounds are met too.
    ghost rises: { (self : Self) (a b : ℤ) → a ≤ℤ b → met self a → met self b };
}
