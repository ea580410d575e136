//! Slots and seats: schedules of jobs of one unit of time on identical machines.
//!
//! It stands on `msp_pieces`. The solvers above use `pieces_in_order`, by which jobs run in the order of a list as their predecessors
//! allow (`IsListSchedule`), and `earliest_slots`, the slots of the earliest schedule over release dates (`AreSlots`). By the law of seats
//! these slots suffice for any schedule: each job has one of its own that begins no later.
#![tactic(auto)]

mod earliest;
mod in_order;
mod laws;
mod slot;

pub use earliest::{Slot, earliest_slots, releases_of, sorted_releases, starts_of};
pub use in_order::pieces_in_order;
pub use laws::law_of_places;
