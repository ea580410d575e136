//! Instances carried along chains of rows, and solutions brought back.
//!
//! It stands on `msp_route` and on the crates of the rows. The layers above use that a best solution at the end of a chain, brought
//! back, is best at its start, and is within the bounds of the calls that take schedules.
#![tactic(auto)]

mod along;
mod rows;
mod step;

pub use along::{bring, carry, solve_along};
