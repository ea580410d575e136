//! Unit jobs with release dates on identical machines, by greatest lateness, for `P|r,p=1|Lmax`: a search over thresholds.
//!
//! Rule: whether a bound on the greatest lateness can be met is asked of any solver of the number of late jobs, at an instance squeezed to
//! the moments at which the earliest schedule begins jobs (`squeezed`): release dates and due dates, raised by the bound, are counted in
//! these moments. A schedule by due dates gives a bound that is met, the least lateness of each job one that no bound is below; the range
//! between is halved, beginning with the bound below its greatest.
//!
//! In the halving: the greatest bound of the range is met, and none below the least.
//!
//! Best (`proofs/Law.antt`, `BackMeets.antt`): a bound is met by a schedule of the given instance exactly where the squeezed one has a
//! schedule without late jobs, since jobs can always begin at the moments at which the earliest schedule begins some (`msp_slots`,
//! `SlotPlaces`). So the least bound that is met is the best cost.
//!
//! It stands on `msp_route` and `msp_slots`. The layers above use the clauses of `Solver`, and that the cost is whole.
#![tactic(auto)]

mod back;
mod by_due_date;
mod kept;
mod search;
mod squeezing;

pub use search::Search;
pub use squeezing::{LATE_COUNT_CLASS, law_of_limits, squeezed};
