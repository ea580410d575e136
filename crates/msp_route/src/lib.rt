//! Reductions that carry instances and schedules, solvers, and a solver composed of both.
//!
//! It stands on `msp_pieces` and `msp_table`. The layers above use the traits `Reduction` and `Solver` alone: what a lawful
//! reduction does to costs, so that a best schedule brought back is best, and that a solver's answer is best within its bounds. A row over
//! which schedules stay as they are says so by `KeepsData` or `KeepsSchedules`, and is a lawful reduction by that. What more than one
//! solver needs stands here too, since no solver's crate stands on another's: the job that ends last (`last_place`), how long jobs take
//! one after another (`total_time`), their pieces and the solution where they run so (`pieces_back_to_back`, `solution_in_order`), the
//! solution of a schedule that is best (`best_solution`), jobs that are sorted by a number (`Keyed`), jobs by due date
//! (`jobs_by_date`), and heads on one machine (`heads_of`): the head of a job is its release date, or the moment at which a job before it
//! would be done that began at its own head, whichever is latest, found from the first job of a forward order to the last.
#![tactic(auto)]

mod answer;
mod back_to_back;
mod best_answer;
mod bounds;
mod copies;
mod dates;
mod halving;
mod heads;
mod keeps;
mod keyed;
mod last_job;
mod laws;
mod question;
mod reduction;
mod solver;
mod times;
mod via;

pub use answer::{Answer, SolverName};
pub use back_to_back::{pieces_back_to_back, solution_in_order};
pub use best_answer::best_solution;
pub use bounds::{
    GREATEST_ANSWER_MOMENT, GREATEST_BACK_MOMENT, GREATEST_CLOSED_UP, GREATEST_LINED_UP,
    GREATEST_OPEN_UNIT, GREATEST_RAISE,
};
pub use copies::{led, recast};
pub use dates::jobs_by_date;
pub use halving::{Range, least_in};
pub use heads::{heads_of, time_of};
pub use keeps::{KeepsData, KeepsSchedules};
pub use keyed::{Keyed, job_numbers, jobs_by_falling_key, jobs_by_key, sort_by_falling_key};
pub use last_job::last_place;
pub use laws::law_of_limits;
pub use question::Question;
pub use reduction::Reduction;
pub use solver::Solver;
pub use times::{first_time, total_time};
pub use via::Via;
