// A row and the solver behind it, as one solver.
ghost use Rattle.std.specs.Prelude.{◌≡◌, false, IfSome};
ghost use Rattle.msp_class.specs.declared.class.Env.TheVariants.{One};
ghost use Rattle.msp_class.specs.declared.class.Order.TheVariants.{Free};
ghost use Rattle.msp_class.specs.declared.class.Times.TheVariants.{Equal};
ghost use Rattle.msp_class.specs.declared.class.Crit.TheVariants.{SumWC};
ghost use Rattle.msp_instance.specs.Conditions.{Inner};

use msp_class::{Class, Crit, Env, Order, Times};
use msp_instance::Instance;
use msp_plain::Row53;
use msp_route::{Solver, Via};
use msp_samples::{class, instance, load, piece};
use msp_schedule::Solution;
use msp_single::Smith;
use std::alloc::Global;

/// The weighted sum of completion times on one machine, where all times are equal.
fn equal_times() -> Class
    ensures { result ≡ record { env = One; cut = false; order = Free; heads = false; times = Equal; crit = SumWC } }
{
    Class {
        times: Times::Equal,
        ..class(Env::One, Order::Free, Crit::SumWC)
    }
}

/// Smith's rule, which asks for no equal times, behind the row that forgets that they are equal.
fn smith_at_equal_times() -> Via<Row53, Smith>
    ensures { result.from ≡ record { env = One; cut = false; order = Free; heads = false; times = Equal; crit = SumWC } }
{
    Via {
        from: equal_times(),
        first: Row53,
        second: Smith,
    }
}

/// Jobs of time 4 and weights 1 and 3.
fn equal_jobs(alloc: Global) -> Option<Instance>
    ensures inner { IfSome result Inner }
    ensures class { IfSome result (λ i. i.class ≡ record { env = One; cut = false; order = Free; heads = false; times = Equal; crit = SumWC }) }
{
    instance(alloc, equal_times(), 1, &[load(4, 1), load(4, 3)], &[])
}

/// What the two answer.
fn answer(alloc: Global) -> Option<Solution> {
    let inst = equal_jobs(alloc)?;
    let solver = smith_at_equal_times();
    if solver.target() == inst.class && solver.fits(&inst) {
        solver.solve(alloc, &inst).ok()
    } else {
        None
    }
}

#[test]
fn a_row_before_a_solver_is_a_solver(rt: HostRuntime) {
    let solution = answer(rt.alloc()).expect(&rt, "a solution");
    assert!(rt; solution.cost.num == 20 && solution.cost.den == 1);
    assert!(rt; solution.schedule.pieces.as_slice() == [piece(1, 0, 4), piece(0, 4, 8)].as_slice());
}
