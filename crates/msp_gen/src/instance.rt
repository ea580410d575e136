// The whole instance.
ghost use Rattle.std.specs.Prelude.{◌≡◌, ◌<◌, ◌≤◌, IfOk, IfErr};
ghost use Rattle.msp_class.specs.declared.sizes.TheConstants.{MOST_JOBS};
ghost use Rattle.msp_instance.specs.Conditions.{InClass};
ghost use Rattle.msp_gen.specs.declared.limits.TheConstants.{SEEDS};
ghost use Rattle.msp_gen.specs.Generated.{machines_of, draw_speeds, draw_shared_time, generated};
ghost use Rattle.msp_gen.specs.Faults.{IsCount, IsGenFault};

use crate::draws::Draws;
use crate::job_data::jobs;
use crate::precedence::arcs;
use msp_class::{Class, EnvKind, List, NoMemory, Times, env_kind, fixed_machines};
use msp_instance::{Instance, MOST_JOBS};
use std::alloc::Global;

/// Why no instance was made.
#[derive(Clone, Copy, Debug, PartialEq, Eq)]
pub enum GenFault {
    /// The number of jobs is not from 1 to 400.
    Jobs,
    /// Memory was refused.
    Memory,
}

/// The number of machines: 4 where the environment fixes none.
fn machines(class: Class) -> u32
    ensures { result ≡ machines_of class.env }
{
    fixed_machines(class.env).unwrap_or(4)
}

/// The speeds of uniform machines.
fn speeds(
    alloc: Global,
    draws: &mut Draws,
    kind: EnvKind,
    machines: u32,
) -> Result<List<u64>, NoMemory>
    ensures { IfOk result (λ speeds. draw_speeds kind machines draws.old.seed ≡ record { value = speeds; seed = draws.new.seed }) }
{
    let mut speeds = List::new(alloc);
    if kind != EnvKind::Uniform {
        return Ok(speeds);
    }
    for _turn in 0..machines {
        speeds.put(draws.draw_from_one(4))?;
    }
    Ok(speeds)
}

/// The time that all operations share where times are not general.
fn shared_time(draws: &mut Draws, times: Times) -> u64
    ensures value { result ≡ (draw_shared_time times draws.old.seed).value }
    ensures seed { draws.new.seed ≡ (draw_shared_time times draws.old.seed).seed }
{
    match times {
        Times::Equal => draws.draw_from_one(100),
        Times::General | Times::Unit => 1,
    }
}

/// The instance of a class with so many jobs, drawn from the seed.
fn drawn(alloc: Global, class: Class, count: u32, draws: &mut Draws) -> Result<Instance, NoMemory>
    requires { count ≤ MOST_JOBS }
    ensures { IfOk result (λ inst. inst ≡ generated class count draws.old.seed) }
{
    let machines = machines(class);
    let speeds = speeds(alloc, draws, env_kind(class.env), machines)?;
    let shared = shared_time(draws, class.times);
    let jobs = jobs(alloc, draws, class, machines, shared, count)?;
    let arcs = arcs(alloc, draws, class.order, count)?;
    Ok(Instance {
        class,
        machines,
        speeds,
        jobs,
        arcs,
    })
}

/// The instance of the class with so many jobs, from 1 to 400, that the seed makes. It belongs to its class.
pub fn generate(alloc: Global, class: Class, jobs: u32, seed: u32) -> Result<Instance, GenFault>
    requires { seed < SEEDS }
    ensures instance { IfOk result (λ inst. inst ≡ generated class jobs seed) }
    ensures in_class { IfOk result (λ inst. InClass inst) }
    ensures count { IfOk result (λ _. IsCount jobs) }
    ensures fault { IfErr result (IsGenFault jobs) }
{
    if jobs == 0 || jobs as usize > MOST_JOBS {
        return Err(GenFault::Jobs);
    }
    let mut draws = Draws {
        seed: u64::from(seed),
    };
    match drawn(alloc, class, jobs, &mut draws) {
        Ok(inst) => Ok(inst),
        Err(NoMemory) => Err(GenFault::Memory),
    }
}
