// Pieces of operations.
ghost use Rattle.std.specs.Prelude.{◌≡◌, ◌+◌, ◌*◌, ◌≤◌, ◌++◌, ◌∷◌, [], OnOk};
ghost use Rattle.msp_class.specs.declared.sizes.TheConstants.{MOST_JOBS, MOST_MACHINES, GREATEST_EQUAL_TIME};
ghost use Rattle.msp_cut_sums.specs.Schedules.{part};

use msp_class::{List, NoMemory};
use msp_pieces::Piece;

/// An operation of a job, and the machine on which it runs.
#[derive(Clone, Copy)]
pub(crate) struct Task {
    pub job: u32,
    pub op: u32,
    pub machine: u32,
}

/// Puts a piece of the operation.
pub(crate) fn put(pieces: &mut List<Piece>, task: Task, from: u64, to: u64) -> Result<(), NoMemory>
    ensures { OnOk result (pieces.new ≡ pieces.old ++ part task.job task.op task.machine from to ∷ []) }
{
    pieces.put(Piece {
        job: task.job,
        op: task.op,
        machine: task.machine,
        from: i128::from(from),
        to: i128::from(to),
    })
}

/// Puts the operation into a slot, of which each lasts the time.
pub(crate) fn put_in_slot(
    pieces: &mut List<Piece>,
    task: Task,
    slot: u64,
    time: u64,
) -> Result<(), NoMemory>
    requires slot { slot ≤ MOST_JOBS + MOST_MACHINES }
    requires time { time ≤ GREATEST_EQUAL_TIME }
    ensures { OnOk result (pieces.new ≡ pieces.old ++ part task.job task.op task.machine (slot * time) ((slot + 1) * time) ∷ []) }
{
    put(pieces, task, slot * time, (slot + 1) * time)
}
