//! Solvers on one machine with release dates, for the sum of the completion times: shortest remaining time, where jobs may be cut
//! (`1|pmtn,r|sumC`; Schrage 1968), and by rising head, where jobs take one time (`1|prec,r,p=p|sumC`; Simons 1983, told in
//! `equal_heads`).
//!
//! Rule: at each moment the released job runs that still needs the least time, ties to the lesser number. The jobs that wait stand in a
//! heap by what they still need; between two release dates the first of them run.
//!
//! In the loop, for any other schedule and any moment: the jobs that it completes by that moment, beyond as many as are done here, would
//! take here at least as long as it still has work for them, where the shortest remaining times are counted for them (`proofs/Lower.antt`).
//!
//! Best (`proofs/Best.antt`): so by each moment at least as many jobs are done here as in any other schedule, and sums of ends compare as
//! these counts do (`proofs/Counts.antt`).
//!
//! It stands on `msp_pieces` and `msp_route`. The layers above use the clauses of `Solver`: the answers are best; and those
//! of `Shortest`, that at each moment the released job with the least remaining time runs, and of `EqualHeads`, that in no feasible schedule
//! the k-th end is earlier, for each k.
#![tactic(auto)]

mod equal_heads;
mod shortest;

pub use equal_heads::EqualHeads;
pub use shortest::Shortest;
