//! Jobs of one time on uniform machines, by the greatest cost of a job, by the weighted tardiness and by the weight of late jobs.
//!
//! A place is a machine and a rank: the job of rank k on a machine of speed s ends after k times the common time over s. Over the unit L,
//! the least common multiple of the speeds, the ends of all places are whole numbers, and the n jobs take the n earliest places
//! (`earliest_places`), ties to the lesser machine. Whatever schedule there is, its jobs have places of their own among these, and none of
//! them ends before its place does (`law_of_earliest_places`, proved in `proofs/OwnPlaces.antt`): the job that ends k-th on a machine has
//! the place of rank k there, and the k-th of any different places ends no earlier than the k-th of the earliest ones
//! (`proofs/Ranks.antt`). So only which job takes which place is left.
//!
//! It stands on `msp_route` and `msp_assign`. The layers above use the clauses of `Solver`: the answers are best.
#![tactic(auto)]

mod earliest;
mod late;
mod laws;
mod most;
mod place;
mod place_assignment;
mod place_costs;

pub use earliest::earliest_places;
pub use late::{PlacesCount, PlacesLate};
pub use laws::law_of_earliest_places;
pub use most::PlacesMost;
pub use place::Place;
