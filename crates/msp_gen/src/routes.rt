// The times of a job, and on which machines it needs them.
ghost use Rattle.std.specs.Prelude.{◌≡◌, ◌<◌, ◌≤◌, IfOk};
ghost use Rattle.msp_class.specs.Env.{kind_of, most_operations};
ghost use Rattle.msp_class.specs.declared.sizes.TheConstants.{MOST_MACHINES};
ghost use Rattle.msp_gen.specs.Draws.{draw_one, draw_turns};
ghost use Rattle.msp_gen.specs.Generated.{machines_of, draw_some_time, draw_shop_time, draw_need, draw_machine, draw_operation, draw_needs};

use crate::draws::Draws;
use msp_class::{Class, EnvKind, List, NoMemory, Times, env_kind, most_operations};
use msp_instance::Need;
use std::alloc::Global;

/// A time of at least 1.
fn some_time(draws: &mut Draws, times: Times, shared: u64) -> u64
    ensures value { result ≡ (draw_some_time times shared draws.old.seed).value }
    ensures seed { draws.new.seed ≡ (draw_some_time times shared draws.old.seed).seed }
{
    match times {
        Times::General => draws.draw_from_one(100),
        Times::Unit | Times::Equal => shared,
    }
}

/// A time on a machine of a shop: it may be 0, but on the first machine.
fn shop_time(draws: &mut Draws, times: Times, shared: u64, machine: u32) -> u64
    ensures value { result ≡ (draw_shop_time times shared machine draws.old.seed).value }
    ensures seed { draws.new.seed ≡ (draw_shop_time times shared machine draws.old.seed).seed }
{
    if machine == 0 {
        return some_time(draws, times, shared);
    }
    match times {
        Times::General => draws.draw(101),
        Times::Unit | Times::Equal => shared,
    }
}

/// One need, on machine 0.
fn single_need(
    alloc: Global,
    draws: &mut Draws,
    times: Times,
    shared: u64,
) -> Result<List<Need>, NoMemory>
    ensures { IfOk result (λ needs. draw_one (draw_need 0 (draw_some_time times shared)) draws.old.seed ≡ record { value = needs; seed = draws.new.seed }) }
{
    let mut needs = List::new(alloc);
    let time = some_time(draws, times, shared);
    needs.put(Need { machine: 0, time })?;
    Ok(needs)
}

/// A need for each machine, with a time of at least 1.
fn need_per_machine(
    alloc: Global,
    draws: &mut Draws,
    times: Times,
    shared: u64,
    machines: u32,
) -> Result<List<Need>, NoMemory>
    ensures { IfOk result (λ needs. draw_turns (λ machine _. draw_one (draw_need machine (draw_some_time times shared))) machines draws.old.seed ≡ record { value = needs; seed = draws.new.seed }) }
{
    let mut needs = List::new(alloc);
    for machine in 0..machines {
        let time = some_time(draws, times, shared);
        needs.put(Need { machine, time })?;
    }
    Ok(needs)
}

/// An operation for each machine, where times may be 0.
fn operation_per_machine(
    alloc: Global,
    draws: &mut Draws,
    times: Times,
    shared: u64,
    machines: u32,
) -> Result<List<Need>, NoMemory>
    ensures { IfOk result
        (λ needs. draw_turns (λ machine _. draw_one (draw_need machine (draw_shop_time times shared machine))) machines draws.old.seed ≡ record { value = needs; seed = draws.new.seed }) }
{
    let mut needs = List::new(alloc);
    for machine in 0..machines {
        let time = shop_time(draws, times, shared, machine);
        needs.put(Need { machine, time })?;
    }
    Ok(needs)
}

/// The machine of the next operation of a route, which is another one than that of the operation before.
fn next_machine(draws: &mut Draws, machines: u32, before: &List<Need>) -> u32
    requires some { 2 ≤ machines }
    requires few { machines ≤ MOST_MACHINES }
    ensures value { result ≡ (draw_machine machines before.now draws.old.seed).value }
    ensures seed { draws.new.seed ≡ (draw_machine machines before.now draws.old.seed).seed }
{
    match before.as_slice().last() {
        None => draws.draw(u64::from(machines)) as u32,
        Some(last) => {
            let steps = draws.draw(u64::from(machines) - 1);
            ((u64::from(last.machine) + 1 + steps) % u64::from(machines)) as u32
        }
    }
}

/// A route of so many operations.
fn route(
    alloc: Global,
    draws: &mut Draws,
    times: Times,
    shared: u64,
    machines: u32,
    count: u64,
) -> Result<List<Need>, NoMemory>
    requires some { 2 ≤ machines }
    requires few { machines ≤ MOST_MACHINES }
    ensures { IfOk result (λ needs. draw_turns (λ _ before. draw_one (draw_operation times shared machines before)) count draws.old.seed ≡ record { value = needs; seed = draws.new.seed }) }
{
    let mut needs = List::new(alloc);
    for _turn in 0..count {
        let machine = next_machine(draws, machines, &needs);
        let time = some_time(draws, times, shared);
        needs.put(Need { machine, time })?;
    }
    Ok(needs)
}

/// The needs of a job.
#[tactic(auto, using(crate::proofs::Machines::shop_machines, crate::proofs::Machines::some_machines))]
pub fn needs(
    alloc: Global,
    draws: &mut Draws,
    class: Class,
    machines: u32,
    shared: u64,
) -> Result<List<Need>, NoMemory>
    requires machines { machines ≡ machines_of class.env }
    ensures { IfOk result (λ needs. draw_needs (kind_of class.env) class machines shared draws.old.seed ≡ record { value = needs; seed = draws.new.seed }) }
{
    match env_kind(class.env) {
        EnvKind::Identical | EnvKind::Uniform => single_need(alloc, draws, class.times, shared),
        EnvKind::Unrelated => need_per_machine(alloc, draws, class.times, shared, machines),
        EnvKind::OpenShop | EnvKind::FlowShop => {
            operation_per_machine(alloc, draws, class.times, shared, machines)
        }
        EnvKind::JobShop => {
            let most = most_operations(class.env).min(4);
            let count = draws.draw_from_one(most as u64);
            route(alloc, draws, class.times, shared, machines, count)
        }
    }
}
