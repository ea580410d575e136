//! The solvers of two-machine shops, with and without preemption, and of open shops with preemption.
//!
//! It stands on `msp_pieces`, `msp_route` and `msp_timetable`. The layers above use the clauses of `Solver`: the answers are best; and
//! those of `Open2` and `OpenCut`: the cost is the greatest of the loads of the machines and of the lengths of the jobs.
#![tactic(auto)]

mod groups;
mod jackson;
mod jackson_cut;
mod johnson;
mod open;
mod open_cut;
mod order;
mod pass;
mod slices;
mod two_machines;

pub use jackson::Jackson;
pub use jackson_cut::JacksonCut;
pub use johnson::Johnson;
pub use open::Open2;
pub use open_cut::OpenCut;
