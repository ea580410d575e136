// Jobs in slots, by their lowered due slots for a bound.
ghost use Rattle.std.specs.Prelude.{◌≡◌, ◌<◌, ◌↔◌, ◌⊎◌, length, slice_index_or, pos, ◌≤ℤ◌, All, IfOk, IsTrue};
ghost use Rattle.msp_instance.specs.Conditions.{Inner};
ghost use Rattle.msp_due.specs.Due.{tree_class, pair_class};
ghost use Rattle.msp_due.specs.Steps.{IsReady, IsListed};

use crate::due_slot::due_slots;
use crate::lowering::lower_all;
use msp_class::{List, NoMemory};
use msp_instance::{Instance, OrderFault, Paths, forward};
use msp_pieces::Piece;
use msp_route::jobs_by_key;
use msp_slots::pieces_in_order;
use std::alloc::Global;

/// What all questions about an instance share: its paths, and its jobs in an order in which arcs go forward.
#[derive(Drop)]
pub struct Shared {
    pub paths: Paths,
    pub order: List<u32>,
}

/// The paths and a forward order of an instance.
pub fn shared_of(alloc: Global, inst: &Instance) -> Result<Shared, NoMemory>
    requires inner { Inner inst.now }
    requires class { (inst.now.class ≡ tree_class) ⊎ (inst.now.class ≡ pair_class) }
    ensures { IfOk result (λ s. IsReady inst.now s.paths s.order) }
{
    let order = match forward(alloc, inst) {
        Ok(order) => order,
        Err(OrderFault::Cycle { .. }) => unreachable!(),
        Err(OrderFault::Memory) => return Err(NoMemory),
    };
    let paths = Paths::of(alloc, inst)?;
    Ok(Shared { paths, order })
}

/// The lowered due slots for a bound, and the pieces of the jobs in slots by them, each for one slot.
#[derive(Drop)]
pub struct InSlots {
    pub slots: Vec<u64>,
    pub pieces: List<Piece>,
}

/// The jobs in slots by their due slots for the bound, ties to the lesser number.
pub fn listed(
    alloc: Global,
    inst: &Instance,
    shared: &Shared,
    bound: &i128,
) -> Result<InSlots, NoMemory>
    requires ready { IsReady inst.now shared.now.paths shared.now.order }
    ensures { IfOk result (λ l. IsListed inst.now bound.now l.slots.items l.pieces) }
{
    let mut slots = due_slots(alloc, inst, bound)?;
    lower_all(
        inst,
        &shared.paths,
        shared.order.as_slice(),
        slots.as_mut_slice(),
    );
    let order = jobs_by_key(alloc, slots.as_slice())?;
    let pieces = pieces_in_order(alloc, inst, order)?;
    Ok(InSlots { slots, pieces })
}

/// Whether each job ends by its due slot.
pub fn in_time(pieces: &[Piece], slots: &[u64]) -> bool
    requires inside { All (λ p. p.job < length slots.now) pieces.now }
    ensures { IsTrue result ↔ All (λ p. p.to ≤ℤ pos (slice_index_or slots.now p.job 0)) pieces.now }
{
    pieces
        .iter()
        .all(|piece| piece.to <= i128::from(slots[piece.job as usize]))
}
