//! Hu's rule: unit jobs of a tree on identical machines, by levels, for `P|intree,p=1|Cmax` (Hu 1961) and for `P|outtree,p=1|sumC`.
//!
//! Rule: the level of a job counts those that follow it, on an intree on its way to the root, on an outtree on its longest way down. In each
//! slot, of the jobs that no job left must precede, those of highest level run, ties to the lesser number.
//!
//! In the loop (`proofs/Counts.antt`, `Progress.antt`): let the bound be the greatest, over the levels t that a job has, of t plus the
//! number of jobs of level at least t over the number of machines, rounded up. Before slot x, for each level t of a job that is left, no
//! more jobs of level at least t are left than the machines run in the slots from x to the bound less t.
//!
//! Best (`proofs/HuBest.antt`): a job of level t is followed by t others, so the jobs of level at least t are done t slots before the end
//! of any schedule; the machines run no more by then (`law_of_levels` of `msp_pieces`).
//!
//! Sums (`proofs/Ended.antt`, `Slots.antt`, `SumBest.antt`): by the moment t no more jobs can have ended than, for any k up to t, those with
//! fewer than k above them and m for each slot from k on (`law_of_places` of `msp_slots`). On an outtree as many end: where a slot has room,
//! all jobs with no more above them than slots before it have begun. Else one of the line above such a job runs in that slot, and the line
//! paused before for want of a machine. The m jobs that ran then have as long a way down, so each has a job below it in the slot: no room.
//!
//! It stands on `msp_pieces`, whose law of levels bounds every feasible schedule from below, on `msp_slots`, by which the jobs run in the
//! order of their levels, and on `msp_route`. The layers above use the clauses of `Solver`, and what the answers cost: the greatest bound of
//! a level, and the sum over the moments of the jobs that cannot have ended by then.
#![tactic(auto)]

mod level;
mod rule;
mod sums;

pub use rule::Levels;
pub use sums::LevelsSum;
