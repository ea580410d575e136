//! Solvers on one machine, where jobs are neither cut nor released late: the rules of Smith, Lawler and Moore.
//!
//! It stands on `msp_pieces` and `msp_route`. The layers above use the clauses of `Solver`: the answers are best. The jobs run one
//! after another from moment 0 on, which `solution_in_order` of `msp_route` makes of an order; Lawler's rule chooses the job that ends last
//! by its `last_place`.
#![tactic(auto)]

mod lawler;
mod moore;
mod smith;

pub use lawler::Lawler;
pub use moore::Moore;
pub use smith::Smith;
