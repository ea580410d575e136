// Arcs that have their ends exchanged.
ghost use Rattle.std.specs.Prelude.{◌≡◌, IfOk, IsSome};
ghost use Rattle.msp_table.specs.Rows.{goes_of};
ghost use Rattle.msp_turn.specs.Turned.{turned_arc, turned_arcs};
ghost use Rattle.msp_turn.specs.Reversal.{led_turned};

use msp_class::{List, NoMemory};
use msp_instance::{Arc, Instance};
use msp_route::led;
use msp_table::Row;
use std::alloc::Global;

/// Exchanges the ends of the arc.
fn turn(arc: &mut Arc)
    ensures { arc.new ≡ turned_arc arc.old }
{
    let before = arc.before;
    arc.before = arc.after;
    arc.after = before;
}

/// Exchanges the ends of every arc.
fn turn_all(arcs: &mut [Arc])
    ensures { arcs.new ≡ turned_arcs arcs.old }
{
    for arc in arcs.iter_mut() {
        turn(arc);
    }
}

/// The same instance in the class to which the row leads, with every arc turned.
pub(crate) fn led_turned(alloc: Global, inst: &Instance, row: Row) -> Result<Instance, NoMemory>
    requires applies { IsSome (goes_of row inst.now.class) }
    ensures { IfOk result (λ copy. copy ≡ led_turned row inst.now) }
{
    let mut lower = led(alloc, inst, row)?;
    let mut arcs = lower.arcs.take_all();
    turn_all(&mut arcs);
    lower.arcs = List::from_vec(arcs);
    Ok(lower)
}
