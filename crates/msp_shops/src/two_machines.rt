// Jackson's rule: each machine takes the jobs that begin on it in Johnson's order, and after them those that come from the other one.
ghost use Rattle.std.specs.Prelude.{◌≡◌, IfOk};
ghost use Rattle.msp_instance.specs.Conditions.{Inner};
ghost use Rattle.msp_pieces.specs.Cost.{IsBest};
ghost use Rattle.msp_route.specs.Bounds.{IsAnswer};
ghost use Rattle.msp_shops.specs.Groups.{IsTwoMachineShop, IsJohnsonGroup};
ghost use Rattle.msp_shops.specs.Jackson.{IsJacksonSchedule};
ghost use Rattle.msp_shops.specs.Laid.{AreLaid};

use crate::groups::{first_total, johnson_group};
use crate::pass::{JobTimes, Moments, Stage, pass};
use msp_class::{List, NoMemory};
use msp_instance::Instance;
use msp_pieces::{Piece, Schedule, Solution};
use std::alloc::Global;

/// The operation of this number, on the machine.
fn stage(op: u32, machine: u32) -> Stage
    ensures { result ≡ record { op = op; machine = machine } }
{
    Stage { op, machine }
}

/// The pieces of all jobs, where the first ones begin on machine 0 and the others on machine 1. A machine takes the jobs that come from
/// the other one when all that begin on it have left it.
fn pieces_of(
    alloc: Global,
    inst: &Instance,
    here: &[JobTimes],
    there: &[JobTimes],
) -> Result<List<Piece>, NoMemory>
    requires inner { Inner inst.now }
    requires shop { IsTwoMachineShop inst.now }
    requires here { IsJohnsonGroup inst.now 0 here.now }
    requires there { IsJohnsonGroup inst.now 1 there.now }
    ensures { IfOk result (λ pieces. AreLaid here.now there.now pieces) }
{
    let mut pieces = List::new(alloc);
    let from_here = Moments {
        first: 0,
        second: first_total(there),
    };
    let from_there = Moments {
        first: 0,
        second: first_total(here),
    };
    pass(&mut pieces, here, stage(0, 0), stage(1, 1), from_here)?;
    pass(&mut pieces, there, stage(0, 1), stage(1, 0), from_there)?;
    Ok(pieces)
}

/// A best schedule of two machines in series. On each machine stand first the jobs that begin on it, in Johnson's order, and then those
/// that come from the other machine.
pub fn in_series(alloc: Global, inst: &Instance) -> Result<Solution, NoMemory>
    requires inner { Inner inst.now }
    requires shop { IsTwoMachineShop inst.now }
    ensures best { IfOk result (λ s. IsBest inst.now s) }
    ensures bounds { IfOk result (λ s. IsAnswer inst.now s.schedule) }
    ensures pieces { IfOk result (λ s. IsJacksonSchedule inst.now s.schedule) }
{
    let here = johnson_group(alloc, inst, 0)?;
    let there = johnson_group(alloc, inst, 1)?;
    let pieces = pieces_of(alloc, inst, &here, &there)?;
    let schedule = Schedule { unit: 1, pieces };
    let cost = msp_pieces::cost(inst, &schedule);
    Ok(Solution { schedule, cost })
}
