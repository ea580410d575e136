//! Jobs of one time with due dates, on trees and on two machines, for the greatest cost.
//!
//! For a bound on the cost each job has a due slot, the last after which it still costs no more. From the last job of a forward order to the
//! first, it is lowered so that all jobs to which paths lead and that are due by some slot fit behind the job. The jobs run in slots by these
//! due slots (`pieces_in_order` of `msp_slots`), and the least bound that they keep is found by halving (`least_in` of `msp_route`).
//! What stays true while due slots are lowered: no places of a feasible schedule that keep the due slots come later than the lowered ones,
//! and these rise along arcs. By the law of places (`law_of_places` of `msp_slots`) each feasible schedule of at most the bound has such
//! places; and if any places keep the lowered due slots, the schedule in slots keeps them (`all_in_time` in `proofs/Meeting.antt`): else
//! before the first late job all slots are full of jobs due no later, more than the places hold. So the schedule of the least bound is best.
//! (Brucker, Garey and Johnson 1977 for trees; Garey and Johnson 1976 for two machines.)
#![tactic(auto)]

mod due_slot;
mod listing;
mod lowering;
mod rule;
mod search;

pub use rule::{PairDue, TreeDue};
pub use search::can_meet;
