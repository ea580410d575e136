// Instances that belong to their classes.
ghost use Rattle.std.specs.Prelude.{◌≡◌, false, map, IfSome};
ghost use Rattle.msp_class.specs.declared.class.Times.TheVariants.{General};
ghost use Rattle.msp_instance.specs.Conditions.{InClass, Inner};
ghost use Rattle.msp_samples.specs.Samples.{instance_of, plain_instance};

use crate::job_data::jobs_by_needs;
use crate::lists::arcs;
use crate::{JobData, jobs, list_of};
use msp_class::{Class, Crit, Env, List, Order, Times};
use msp_instance::{Instance, Need, check, forward};
use std::alloc::Global;

/// A class without preemption and release dates, with times of any length.
pub const fn class(env: Env, order: Order, crit: Crit) -> Class
    ensures { result ≡ record { env = env; cut = false; order = order; heads = false; times = General; crit = crit } }
{
    Class {
        env,
        cut: false,
        order,
        heads: false,
        times: Times::General,
        crit,
    }
}

/// The same instance, or None where it does not belong to its class, or when out of memory.
pub fn in_class(alloc: Global, inst: Instance) -> Option<Instance>
    ensures class { IfSome result InClass }
    ensures inner { IfSome result Inner }
    ensures same { IfSome result (λ i. i ≡ inst) }
{
    if check(&inst).is_err() {
        return None;
    }
    match forward(alloc, &inst) {
        Ok(_) => Some(inst),
        Err(_) => None,
    }
}

/// An instance of jobs of one operation, without speeds, or None where it does not belong to the class, or when out of memory.
pub fn instance(
    alloc: Global,
    class: Class,
    machines: u32,
    all: &[JobData],
    before: &[(u32, u32)],
) -> Option<Instance>
    ensures whole { IfSome result (λ i. i ≡ instance_of class machines all.now before.now) }
    ensures inner { IfSome result Inner }
    ensures class { IfSome result (λ i. i.class ≡ class) }
{
    let inst = Instance {
        class,
        machines,
        speeds: List::new(alloc),
        jobs: jobs(alloc, all).ok()?,
        arcs: arcs(alloc, before).ok()?,
    };
    in_class(alloc, inst)
}

/// An instance of jobs with needs alone, or None where it does not belong to the class, or when out of memory.
pub fn instance_by_needs(
    alloc: Global,
    class: Class,
    machines: u32,
    speeds: &[u64],
    all: &[&[Need]],
) -> Option<Instance>
    ensures whole { IfSome result (λ i. i ≡ plain_instance class machines speeds.now (map (λ needs. needs.now) all.now)) }
    ensures inner { IfSome result Inner }
    ensures class { IfSome result (λ i. i.class ≡ class) }
{
    let inst = Instance {
        class,
        machines,
        speeds: list_of(alloc, speeds).ok()?,
        jobs: jobs_by_needs(alloc, all).ok()?,
        arcs: List::new(alloc),
    };
    in_class(alloc, inst)
}
