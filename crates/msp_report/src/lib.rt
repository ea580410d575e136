//! The texts of reports: labels of classes, the frontier, why a class has its label, the table of rows, the answer to an instance,
//! whole or in a few lines, the check of a schedule, a certified cost, and whether a certificate is accepted.
//!
//! It stands on `msp_class`, `msp_name`, `msp_table`, `msp_closure`, `msp_route`, `msp_cert`, `msp_cert_text`, `msp_grammar`, `msp_text`
//! and `itoa`. The layer above uses that each text is exactly the one that `specs/` defines.
#![tactic(auto)]

mod certify;
mod chain_text;
mod check;
mod frontier;
mod labels;
mod lines;
mod rows;
mod solve;
mod trial;
mod why;

pub use certify::{accept_text, certify_text};
pub use check::{check_text, states_its_cost};
pub use frontier::frontier_text;
pub use labels::labels_text;
pub use rows::rows_text;
pub use solve::solve_text;
pub use trial::trial_text;
pub use why::why_text;
