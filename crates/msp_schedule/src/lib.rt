//! Judging schedules: whether a schedule is feasible, and which condition of a feasible one it breaks first.
//!
//! It stands on `msp_pieces`, which says what a feasible schedule is. The layers above use that `first_break` and `swept` answer None
//! exactly where a schedule is feasible, and else its first break, which is determined (`law_of_first_break`). What a caller names with
//! these calls is re-exported here: all public names of `msp_pieces` but `product` and `ends_of`, which serve this crate alone.
#![tactic(auto)]

mod arcs;
mod breaks;
mod laws;
mod occupancies;
mod overlaps;
mod routes;
mod shares;
mod sweep;
mod work;

pub use breaks::{Break, first_break};
pub use laws::law_of_first_break;
pub use msp_pieces::{
    Frac, GREATEST_CARRIED_UNIT, GREATEST_COMPARED_DENOMINATOR, GREATEST_COMPARED_NUMERATOR,
    GREATEST_MOMENT, GREATEST_UNIT, MOST_PIECES, Piece, Schedule, Solution, all_jobs, compare,
    cost, flags_before, flags_of, follows_flagged, job_cost_at, law_of_blocks, law_of_ends,
    law_of_floors, law_of_groups, law_of_last_ends, law_of_levels, law_of_limits, law_of_lines,
    law_of_machines, law_of_prices, law_of_segments, law_of_speeds, lowest, settle, sort_pieces,
};
pub use sweep::swept;
