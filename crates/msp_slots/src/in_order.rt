// Jobs of one unit of time that run in the order of a list.
ghost use Rattle.std.specs.Prelude.{IfOk, IsPermutation, length};
ghost use Rattle.std.specs.List.{range_with_len};
ghost use Rattle.msp_instance.specs.Conditions.{Inner};
ghost use Rattle.msp_slots.specs.ListSchedule.{IsListSchedule};

use crate::slot::{Split, next_slot, put_pieces};
use msp_class::{List, NoMemory};
use msp_instance::{Instance, arcs_by_after};
use msp_pieces::Piece;
use std::alloc::Global;

/// The pieces of all jobs, each for one unit of time: at each moment, of the jobs that no job left must precede, the first in the order run,
/// on machines in order.
pub fn pieces_in_order(
    alloc: Global,
    inst: &Instance,
    order: Vec<u32>,
) -> Result<List<Piece>, NoMemory>
    requires inner { Inner inst.now }
    requires all { IsPermutation (range_with_len 0 (length inst.now.jobs)) order.items }
    ensures { IfOk result (IsListSchedule inst.now order.items) }
{
    let sorted = arcs_by_after(alloc, inst.arcs.as_slice())?;
    let mut pieces = List::new(alloc);
    let mut left = order;
    let mut moment: u32 = 0;
    while !left.is_empty() {
        let Split { taken, rest } = next_slot(
            alloc,
            sorted.as_slice(),
            left.as_slice(),
            inst.machines as usize,
        )?;
        put_pieces(&mut pieces, taken.as_slice(), moment)?;
        left = rest;
        moment += 1;
    }
    Ok(pieces)
}
