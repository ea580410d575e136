//! Instances and schedules for tests.
//!
//! It stands on `msp_class`, `msp_instance` and `msp_pieces`. `msp_tests` uses it, and no program does.
#![tactic(auto)]

mod instances;
mod job_data;
mod lists;
mod pieces;

pub use instances::{class, in_class, instance, instance_by_needs};
pub use job_data::{JobData, UNIT_JOB, jobs, load, need, timed};
pub use lists::list_of;
pub use pieces::piece;
