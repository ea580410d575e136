//! Schedules over any unit: pieces, and what it means that a schedule is feasible, what it costs, and that it is best.
//!
//! It stands on `msp_instance`. The layers above use the definitions `Feasible`, `cost_of` and `Best`, that `cost` gives the cost in
//! lowest terms, that `settle` keeps it, and the laws of feasible schedules: `law_of_blocks` on one machine, `law_of_ends`,
//! `law_of_groups`, `law_of_floors`, `law_of_levels` and `law_of_segments` on identical machines, `law_of_last_ends` on these and in
//! shops, `law_of_speeds` on identical and uniform machines, `law_of_prices` on unrelated machines, and `law_of_machines` and
//! `law_of_lines` in shops. `law_of_limits` says the limits by their numbers. `msp_schedule` judges any schedule.
#![tactic(auto)]

ghost use Rattle.std.specs.Prelude.{pos, ◌≤ℤ◌};

use msp_class::List;

mod fraction;
mod job_cost;
mod job_flags;
mod laws;
mod limits;
mod numbers;
mod settling;
mod total_cost;

pub use fraction::{compare, lowest};
pub use job_cost::{job_cost_at, product};
pub use job_flags::{flags_before, flags_of, follows_flagged};
pub use laws::{
    law_of_blocks, law_of_ends, law_of_floors, law_of_groups, law_of_last_ends, law_of_levels,
    law_of_limits, law_of_lines, law_of_machines, law_of_prices, law_of_segments, law_of_speeds,
};
pub use limits::{
    GREATEST_CARRIED_UNIT, GREATEST_COMPARED_DENOMINATOR, GREATEST_COMPARED_NUMERATOR,
    GREATEST_MOMENT,
};
pub use msp_class::{GREATEST_UNIT, MOST_PIECES};
pub use numbers::all_jobs;
pub use settling::{settle, sort_pieces};
pub use total_cost::{cost, ends_of};

/// A piece of work on an operation of a job, all three numbered from 0. A moment `x` stands for the time `x / unit`.
#[derive(Clone, Copy, PartialEq, Eq)]
pub struct Piece {
    pub job: u32,
    pub op: u32,
    pub machine: u32,
    pub from: i128,
    pub to: i128,
}

/// A schedule: its pieces, with moments in parts of size `1 / unit`.
#[derive(Drop)]
pub struct Schedule {
    pub unit: i128,
    pub pieces: List<Piece>,
}

/// A fraction: a numerator over a denominator of at least 1.
#[derive(Clone, Copy, PartialEq, Eq)]
pub struct Frac {
    pub num: i128,
    pub den: i128,
    ghost positive: { pos 1 ≤ℤ den },
}

/// A schedule and its cost.
#[derive(Drop)]
pub struct Solution {
    pub schedule: Schedule,
    pub cost: Frac,
}
