//! What a list of known results decides about every class: the labels, the frontier, and the chains of reductions that show them.
//! Beside them which classes each class leads to.
//!
//! It stands on `msp_class` and `msp_table`.
#![tactic(auto)]

mod chains;
mod class_table;
mod distances;
mod entry;
mod frontier_lists;
mod labels;
mod links;
mod listing;
mod outlook;
mod reach_bits;
mod reached;
mod relation;
mod routes;
mod row_set;
mod walk;

pub use chains::{clash, strong_clash, why_easy, why_hard, why_pseudo, why_strong};
pub use entry::{Entry, Mark, Verdict};
pub use frontier_lists::{FrontierLists, frontier};
pub use labels::{Labels, close, label};
pub use reach_bits::{ReachBits, reach, reaches};
pub use routes::{Routes, route, route_to, routes_from};
