//! The solvers of total completion time on uniform and unrelated machines, and of unit jobs with release dates by slots, on identical
//! machines and in flow shops.
//!
//! Where all operations take one unit of time, a flow shop is one machine whose jobs end m - 1 later: the operations of a job run in slots
//! one after another, on each machine in the same order. So each job takes a slot of the earliest schedule on one machine, all together at
//! least cost (`least_slots`). Whatever schedule there is, its jobs come to the last machine at moments that, rounded down to whole ones
//! and moved m - 1 to the front, are apart and not before the release dates (`proofs/LineBegins.antt`); so each job has a slot of its own
//! that begins no later.
//!
//! It stands on `msp_route`, on `msp_assign` for least assignments, and on `msp_slots` for the slots of unit jobs. The layers above use
//! the clauses of `Solver`: the answers are best; and those of `prices`, and of `solve_with_prices`, which gives
//! them with a best schedule: they are together what a best schedule costs.
#![tactic(auto)]

mod job_slots;
mod lay;
mod positions;
mod slot_assignment;
mod slot_costs;
mod slot_table;
mod uniform;
mod unit_lines;
mod unit_slots;
mod unrelated;

pub use positions::Positions;
pub use slot_table::Slots;
pub use uniform::Uniform;
pub use unit_lines::{LinesCount, LinesLate};
pub use unit_slots::{SlotsCount, SlotsLate};
pub use unrelated::{PricedSolution, Unrelated, prices, solve_with_prices};
