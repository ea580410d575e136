// Machines and jobs of shops.
ghost use Rattle.std.specs.Prelude.{◌↔◌, IsTrue, IfSome};
ghost use Rattle.msp_instance.specs.Conditions.{InClass};
ghost use Rattle.msp_pieces.specs.Fraction.{IsComparable};
ghost use Rattle.msp_cert.specs.declared.Proof.TheVariants.{Machine, Line};
ghost use Rattle.msp_cert.specs.Certificates.{IsShop, HoldsFor};
ghost use Rattle.msp_cert.specs.Worth.{IsWorth};

use crate::loads::{load_on, time_of_all};
use crate::worth::over;
use msp_class::{Crit, is_shop};
use msp_instance::Instance;
use msp_pieces::Frac;

/// Whether the makespan of a shop is asked for.
pub(crate) fn is_shop_asked(inst: &Instance) -> bool
    ensures { IsTrue result ↔ IsShop inst.now }
{
    inst.class.crit == Crit::Cmax && is_shop(inst.class.env)
}

fn is_machine_of_shop(inst: &Instance, machine: u32) -> bool
    ensures { IsTrue result ↔ HoldsFor inst.now (Machine machine) }
{
    is_shop_asked(inst) && machine < inst.machines
}

fn is_job_of_shop(inst: &Instance, job: u32) -> bool
    ensures { IsTrue result ↔ HoldsFor inst.now (Line job) }
{
    is_shop_asked(inst) && (job as usize) < inst.jobs.len()
}

/// What the machine is worth.
#[tactic(auto, using(crate::proofs::Facts::small_needs, crate::proofs::Decided::worth_nothing, crate::proofs::Decided::machine_is_worth))]
pub(crate) fn machine_worth(inst: &Instance, machine: u32) -> Option<Frac>
    requires { InClass inst.now }
    ensures worth { IsWorth inst.now (Machine machine) result }
    ensures small { IfSome result IsComparable }
{
    if !is_machine_of_shop(inst, machine) {
        return None;
    }
    let load = load_on(inst.jobs.as_slice(), machine);
    Some(over(load, 1))
}

/// What the job is worth.
#[tactic(auto, using(crate::proofs::Facts::small_needs, crate::proofs::Decided::worth_nothing, crate::proofs::Decided::line_is_worth))]
pub(crate) fn line_worth(inst: &Instance, job: u32) -> Option<Frac>
    requires { InClass inst.now }
    ensures worth { IsWorth inst.now (Line job) result }
    ensures small { IfSome result IsComparable }
{
    if !is_job_of_shop(inst, job) {
        return None;
    }
    let length = time_of_all(inst.jobs.as_slice()[job as usize].needs.as_slice());
    Some(over(length, 1))
}
