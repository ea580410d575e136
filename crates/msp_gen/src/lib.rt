//! Instances made from a class, a number of jobs and a seed: large valid inputs without a file.
//!
//! It stands on `msp_class` and `msp_instance`. The layer above uses the contract of `generate`: the instance is the one that the
//! definition names, and it belongs to its class.
#![tactic(auto)]

mod draws;
mod instance;
mod job_data;
mod laws;
mod limits;
mod precedence;
mod routes;

pub use instance::{GenFault, generate};
pub use laws::law_of_limits;
pub use limits::SEEDS;
