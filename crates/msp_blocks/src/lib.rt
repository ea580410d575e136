//! Solvers on one machine for the greatest cost of a job by its curve, where jobs are released late: by blocks, with preemption
//! (`1|pmtn,prec,r|fmax`) or with unit times (`1|prec,r,p=1|fmax`; Baker, Lawler, Lenstra and Rinnooy Kan 1983).
//!
//! Rule: release dates are raised along arcs to heads, before which no job can begin (`heads_of` of `msp_route`). The earliest schedule of
//! the jobs by rising head falls into blocks without idle time. In the first block, of the jobs that no other one of it must follow, the
//! one that costs least at the block's end ends last: it takes the gaps that the earliest schedule of the others leaves up to there. Then
//! the others are placed in the same way.
//!
//! In the loop (`proofs/Fill.antt`): the pieces so far lie in their blocks and add up, no job begins before its head, arcs are kept, and
//! each job placed costs no more than the value of some block.
//!
//! Best (`proofs/Bound.antt`): the jobs of a block cannot begin before its first head, so in any schedule one that no other one of them
//! must follow ends at the block's end or later, and costs there at least what the chosen one does. The block of greatest value is evidence
//! of the cost (`binding`).
//!
//! It stands on `msp_pieces` and `msp_route`, whose `last_place` chooses the last job of a block as Lawler's rule does. The layers above
//! use the clauses of `Solver`: the answers are best; and those of `binding`, and of `solve_with_block`, which gives it with a best
//! schedule: a block whose value is the best cost, as evidence of it.
#![tactic(auto)]

mod blocks;
mod filling;

pub use blocks::{BindingBlock, BlockSolution, Blocks, UnitBlocks, binding, solve_with_block};
