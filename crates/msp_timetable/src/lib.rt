//! Splits a matrix of times into slices in which each row has at most one column, and no two rows the same.
//!
//! It stands on `msp_assign`, for the step along an augmenting path (`pass_on`). The layers above use the clauses of
//! `split`: the slices in which a row has a column last as long as the cell says, and all slices together as long as the longest row or
//! column.
#![tactic(auto)]

mod cutting;
mod filling;
mod matching;
mod matrix;
mod search;
mod splitting;
mod square;

pub use matrix::{Matrix, Slice};
pub use splitting::{MOST_COLUMNS, MOST_ROWS, law_of_limits, split};
