//! Tests of the public calls of the crates below, in one crate, since a crate with tests of its own is proved once more for them.
//!
//! It stands on all that it calls, and nothing stands on it.
#![tactic(auto)]

#[cfg(test)]
mod assignments;
#[cfg(test)]
mod bounds;
#[cfg(test)]
mod bytes;
#[cfg(test)]
mod certificates;
#[cfg(test)]
mod classes;
#[cfg(test)]
mod composed;
#[cfg(test)]
mod definitions;
#[cfg(test)]
mod evidence;
#[cfg(test)]
mod generated;
#[cfg(test)]
mod halving;
#[cfg(test)]
mod instances;
#[cfg(test)]
mod job_names;
#[cfg(test)]
mod numbers;
#[cfg(test)]
mod rows;
#[cfg(test)]
mod solvers;
#[cfg(test)]
mod texts;
