// The sizes that bound what the calls take. The limits of the other crates are these, or expressions over them where they stand.

/// The most jobs of an instance.
pub const MOST_JOBS: usize = 400;
/// The most machines.
pub const MOST_MACHINES: u32 = 32;
/// The most precedence constraints of an instance.
pub const MOST_ARCS: usize = 20_000;
/// The most operations of a job shop's route.
pub const MOST_OPERATIONS: usize = 32;
/// The most operations of a job shop's route with `n<=2`.
pub const MOST_SHORT_OPERATIONS: usize = 2;
/// The most steps of a cost curve.
pub const MOST_STEPS: usize = 16;
/// The most pieces of a schedule. An open shop with interruptions has fewer than `r * (r * c + 2 * (r + c))` for `r` machines and `c` jobs.
pub const MOST_PIECES: usize = 500_000;
/// The greatest time, release date, weight, slope, threshold or add, and the size of the greatest due date or base.
pub const GREATEST: u64 = 1_000_000_000;
/// The greatest speed.
pub const GREATEST_SPEED: u64 = 1_000_000;
/// The greatest least common multiple of the speeds.
pub const GREATEST_MULTIPLE: u64 = 1 << 30;
/// The greatest time that all operations share in a class of equal times.
pub const GREATEST_EQUAL_TIME: u64 = 1_000_000;
/// The greatest unit of a schedule.
pub const GREATEST_UNIT: i128 = 10_000_000_000_000;
