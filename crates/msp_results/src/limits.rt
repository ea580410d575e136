// The limits of results files.

/// The most bytes of a file.
pub const LONGEST_FILE: usize = 4_194_304;
/// The most entries of a file.
pub const MOST_ENTRIES: u32 = 20_000;
/// The most bytes of a source.
pub const LONGEST_SOURCE: usize = 200;
