// The bounds that schedules keep on their way back.
use msp_class::{GREATEST, GREATEST_UNIT, MOST_JOBS};

/// The greatest moment of a schedule that is brought back over a row: at least that of an answer and `GREATEST_RAISE` for every second class of
/// a chain, and at most `GREATEST_MOMENT`.
pub const GREATEST_BACK_MOMENT: i128 = 19 * GREATEST_ANSWER_MOMENT;
/// How far release dates that become due dates move the moments of a schedule at most.
pub const GREATEST_RAISE: i128 = 2 * GREATEST as i128 * GREATEST_UNIT;
/// The greatest moment of a schedule whose jobs are put one after another.
pub const GREATEST_LINED_UP: i128 = MOST_JOBS as i128 * GREATEST as i128 * GREATEST_UNIT;
/// The greatest moment of a schedule without time in which no machine works, where all operations take an equal time: rounded up from
/// `MOST_JOBS * MOST_OPERATIONS * GREATEST_EQUAL_TIME * GREATEST_UNIT`.
pub const GREATEST_CLOSED_UP: i128 = 130_000_000_000_000_000_000_000;
/// The greatest moment of a solver's answer: at least `MOST_JOBS + 2` times `GREATEST` over `GREATEST_UNIT`, and in open shops as much for each
/// machine over `GREATEST_OPEN_UNIT`.
pub const GREATEST_ANSWER_MOMENT: i128 = 10_000_000_000_000_000_000_000_000;
/// The greatest unit of a solver's answer in open shops.
pub const GREATEST_OPEN_UNIT: i128 = GREATEST as i128;
