//! The table of elementary reductions between classes: 54 rows, and chains of rows.
//!
//! It stands on `msp_class`. The layers above use that `goes` is the table: the class to which a row leads, and None exactly where
//! the row does not apply.
#![tactic(auto)]

mod apply;
mod kinds;
mod laws;
mod row;
mod steps;

pub use apply::goes;
pub use kinds::{carries, keeps_size, kind, text};
pub use laws::law_of_limits;
pub use row::{Chain, ROWS, Row, RowKind};
