// Solvers: what answers the instances of one class.
ghost use Rattle.std.specs.Prelude.{◌≡◌, ◌↔◌, ⊤, IfOk, IsTrue};
ghost use Rattle.msp_class.specs.declared.class.Class.{Class as ClassValue};
ghost use Rattle.msp_instance.specs.declared.Instance.{Instance as Inst};
ghost use Rattle.msp_instance.specs.Conditions.{Inner};
ghost use Rattle.msp_pieces.specs.Cost.{IsBest};
ghost use Rattle.msp_route.specs.Bounds.{IsAnswer};

use msp_class::{Class, NoMemory};
use msp_instance::Instance;
use msp_pieces::Solution;
use std::alloc::Global;

/// What answers each instance of a class that fits it with a best schedule. A solver that names no limit can solve each instance of its
/// class, and its `fits` answers true.
pub trait Solver {
    /// The class whose instances it solves.
    ghost solved: { Self → ClassValue };

    /// The solver can solve the instance.
    ghost can_solve: { Self → Inst → Type 0 } = { λ _ _. ⊤ };

    /// The solver may be asked whether it can.
    ghost may_ask: { Self → Inst → Type 0 } = { λ _ _. ⊤ };

    /// The class whose instances it solves.
    fn target(&self) -> Class
        ensures { result ≡ solved self.now };

    /// Whether it can solve the instance.
    fn fits(&self, inst: &Instance) -> bool
        requires inner { Inner inst.now }
        requires class { inst.now.class ≡ solved self.now }
        requires asked { may_ask self.now inst.now }
        ensures { IsTrue result ↔ can_solve self.now inst.now };

    /// A best schedule of the instance, with its cost.
    fn solve(&self, alloc: Global, inst: &Instance) -> Result<Solution, NoMemory>
        requires inner { Inner inst.now }
        requires class { inst.now.class ≡ solved self.now }
        requires fits { can_solve self.now inst.now }
        ensures best { IfOk result (λ s. IsBest inst.now s) }
        ensures bounds { IfOk result (λ s. IsAnswer inst.now s.schedule) };
}
