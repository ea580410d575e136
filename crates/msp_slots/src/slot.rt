// One slot: of the jobs left the first that are free, on machines in order.
ghost use Rattle.std.specs.Prelude.{◌≡◌, ◌++◌, ◌∷◌, [], ◌<◌, ◌≤◌, length, All, IfOk, OnOk, if◌then◌else◌};
ghost use Rattle.std.specs.List.Sorted.{IsNonDecreasingBy};
ghost use Rattle.msp_class.specs.declared.sizes.TheConstants.{MOST_JOBS, MOST_MACHINES};
ghost use Rattle.msp_slots.specs.Steps.{is_blocked, IsSlot, seats};

use msp_class::{List, NoMemory};
use msp_instance::Arc;
use msp_pieces::{Piece, flags_of, follows_flagged};
use std::alloc::Global;

/// The jobs of a slot, and those that are left after it.
#[derive(Drop)]
pub struct Split {
    pub taken: Vec<u32>,
    pub rest: Vec<u32>,
}

/// Puts a job into the slot, or among the rest.
fn put(split: &mut Split, job: u32, goes: bool) -> Result<(), NoMemory>
    ensures taken { OnOk result (split.new.taken.items ≡ (if goes then split.old.taken.items ++ job ∷ [] else split.old.taken.items)) }
    ensures rest { OnOk result (split.new.rest.items ≡ (if goes then split.old.rest.items else split.old.rest.items ++ job ∷ [])) }
{
    let pushed = if goes {
        split.taken.push(job)
    } else {
        split.rest.push(job)
    };
    pushed?;
    Ok(())
}

/// The next slot of the jobs that are left, with the arcs by their jobs after: of those that no arc enters from another, the first in order.
pub fn next_slot(
    alloc: Global,
    sorted: &[Arc],
    left: &[u32],
    machines: usize,
) -> Result<Split, NoMemory>
    requires ends { All (λ a. (a.before < MOST_JOBS) × (a.after < MOST_JOBS)) sorted.now }
    requires sorted { IsNonDecreasingBy (λ a. a.after) sorted.now }
    requires inside { All (λ j. j < MOST_JOBS) left.now }
    ensures { IfOk result (λ s. IsSlot left.now (is_blocked sorted.now left.now) machines s.taken.items s.rest.items) }
{
    let is_left = flags_of(left);
    let mut split = Split {
        taken: Vec::new(alloc),
        rest: Vec::new(alloc),
    };
    for job in left {
        let goes = split.taken.len() < machines && !follows_flagged(sorted, &is_left, *job);
        put(&mut split, *job, goes)?;
    }
    Ok(split)
}

/// Adds the pieces of a slot: its jobs for one unit of time from the moment on, on machines in order.
pub fn put_pieces(pieces: &mut List<Piece>, taken: &[u32], moment: u32) -> Result<(), NoMemory>
    requires few { length taken.now ≤ MOST_MACHINES }
    requires early { moment ≤ MOST_JOBS }
    ensures { OnOk result (pieces.new ≡ pieces.old ++ seats moment 0 taken.now) }
{
    for machine in 0..taken.len() {
        let next = Piece {
            job: taken[machine],
            op: 0,
            machine: machine as u32,
            from: i128::from(moment),
            to: i128::from(moment + 1),
        };
        pieces.put(next)?;
    }
    Ok(())
}
