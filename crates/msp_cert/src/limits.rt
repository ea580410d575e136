// The limits within which certificates are judged.

/// The most entries of a proof: jobs, lists, levels, heads and prices. At least `MOST_JOBS` prices of rows, and of columns `MOST_MACHINES` times
/// as many.
pub const MOST_ENTRIES: usize = 20_000;
/// The greatest head: at least `MOST_JOBS + 2` times `GREATEST`.
pub const GREATEST_HEAD: u64 = 1_000_000_000_000;
/// The greatest size of a price: at least `MOST_JOBS * GREATEST`.
pub const GREATEST_PRICE: u64 = 1_000_000_000_000_000;
