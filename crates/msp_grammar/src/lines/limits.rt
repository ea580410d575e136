// The limits of texts.

/// The most bytes of a text that is read: at least `MOST_PIECES` lines of some hundred bytes.
pub const MOST_BYTES: usize = 1 << 26;

/// The greatest number of a schedule text's first line: more than `MOST_BYTES`, since it stands after an instance text.
pub const LAST_LINE: u32 = 1 << 27;
