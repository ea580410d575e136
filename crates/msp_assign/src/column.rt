// A column by its line.

/// A column: its line, and how many columns of the line stand before it.
#[derive(Clone, Copy)]
pub struct Column {
    pub line: u32,
    pub place: u32,
}
