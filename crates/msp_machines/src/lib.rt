//! The reductions that change the environment: more machines, machines of another kind, and shops.
//!
//! It stands on `msp_route`. The layer above uses that each row is a lawful `Reduction`.
#![tactic(auto)]

mod environments;
mod same_jobs;
mod shops;
mod unrelated;

pub use environments::{
    Row17, Row18, Row19, Row22, Row25, Row35, Row36, Row37, Row38, Row41, Row42, Row43, Row44,
};
pub use same_jobs::{Row20, Row21, Row32, Row33, Row34};
pub use shops::{Row28, Row29, Row30, Row31, Row39, Row40};
pub use unrelated::{Row23, Row24, Row26, Row27};
