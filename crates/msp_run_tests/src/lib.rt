//! Tests of `run` over devices in memory that are computations, and of rows and searches that no text asks alone.
//!
//! It stands on `msp_top` and on what its tests build instances with; nothing stands on it. Tables stand in the files of `msp_cases`.
#![tactic(auto)]

#[cfg(test)]
mod breaks;
#[cfg(test)]
mod by_hand;
#[cfg(test)]
mod calls;
#[cfg(test)]
mod checked;
#[cfg(test)]
mod hostile;
#[cfg(test)]
mod rows;
#[cfg(test)]
mod solvers;
#[cfg(test)]
mod ways;
