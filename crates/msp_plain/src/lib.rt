//! The reductions that change names and criteria alone, the one from equal times to unit times, and those that turn a bound on the
//! greatest lateness into a sum.
//!
//! It stands on `msp_route`. The layer above uses that each row is a lawful `Reduction`, and the threshold law.
#![tactic(auto)]

mod criteria;
mod curves;
mod equal;
mod names;
mod threshold;

pub use criteria::{Row8, Row10, Row11, Row12, Row13, Row14};
pub use curves::Row9;
pub use equal::Row54;
pub use names::{Row1, Row2, Row3, Row4, Row5, Row6, Row7, Row53};
pub use threshold::{meets, shifted, threshold_law};
