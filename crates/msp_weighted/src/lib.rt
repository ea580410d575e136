//! The least weight of late jobs on one machine, `1||sumwU`, by a table over total times (Lawler and Moore 1969).
//!
//! Rule: the jobs are looked at by due date, ties by number. The table says for each total time the greatest weight of a choice of the jobs
//! so far that takes just that time and is on time one after another, and flags the jobs that gave it; the way back through the flags
//! chooses the jobs. These run first, by due date, and then the others by number.
//!
//! In the loop (`proofs/ValueFacts.antt`, `RowFacts.antt`): a value is the weight of some choice, and no choice of that total time that is
//! on time weighs more. Total times are looked at from the greatest to the least, so that each job counts once.
//!
//! Best (`proofs/LateBest.antt`): the jobs that are on time in any schedule are a choice that is on time back to back, since the machine has
//! done those due by a date when it comes; so they weigh no more than the best value.
//!
//! It stands on `msp_pieces` and `msp_route`. The layers above use the clauses of `Solver`: where all jobs together take at most a
//! million, the answer is best.
#![tactic(auto)]

mod bits;
mod late_table;
mod table;
mod walk;

pub use late_table::{GREATEST_TOTAL, LateTable, law_of_limits};
