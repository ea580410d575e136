//! The solver on one machine where each job has at most one predecessor: Horn's rule for `1|outtree|sumwC` (Horn 1972).
//!
//! Rule: each job is a block of its own, and a start that takes no time comes before all. Again and again, of all blocks but that of the
//! start, the one of greatest ratio of weight to time is joined behind the block that holds the predecessor of its first job, or the start,
//! ties to the lesser number of that job. In the end one block is left, and the jobs run in its order.
//!
//! In the loop (`proofs/Joins.antt`): for each order of the jobs that keeps the arcs some order of the blocks costs no more. For where a
//! block of greatest ratio does not follow what is before it, it can be moved there at no loss.
//!
//! Best (`proofs/HornBest.antt`): the last block costs no more than any order that keeps the arcs, and the order in which any feasible
//! schedule ends its jobs costs no more than that schedule.
//!
//! It stands on `msp_pieces` and `msp_route`. The layers above use the clauses of `Solver`: the answers are best. The jobs run one after
//! another from moment 0 on, by `solution_in_order` of `msp_route`.
#![tactic(auto)]

mod horn;
mod joining;

pub use horn::Horn;
