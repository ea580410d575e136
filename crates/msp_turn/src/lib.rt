//! The reductions that read schedules from their end, those on one machine between cut and uncut jobs, and those by exchange of times
//! and weights.
//!
//! It stands on `msp_route`. The layer above uses that each row is a lawful `Reduction`.
#![tactic(auto)]

mod arcs;
mod dates;
mod ends;
mod exchange;
mod line_up;
mod one_machine;
mod reversal;
mod trees;

pub use dates::{Row47, Row48};
pub use exchange::{Row51, Row52};
pub use one_machine::{Row49, Row50};
pub use trees::{Row45, Row46};
