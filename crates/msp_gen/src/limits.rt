// How many seeds there are.

/// A seed is below it.
pub const SEEDS: u64 = 1 << 31;
