// What rows cost at columns.
ghost use Rattle.std.specs.Prelude.{◌≡◌, ◌<◌, ℕ, ℤ};

/// A table of costs by rows and columns, both from 0. A cost is read when it is needed.
pub trait Costs {
    /// How many rows.
    ghost row_count: { Self → ℕ };

    /// How many columns.
    ghost column_count: { Self → ℕ };

    /// What a row costs at a column.
    ghost cost: { Self → ℕ → ℕ → ℤ };

    fn rows(&self) -> u32
        ensures { result ≡ row_count self.now };

    fn columns(&self) -> u32
        ensures { result ≡ column_count self.now };

    /// What the row costs at the column.
    fn at(&self, row: u32, column: u32) -> i128
        requires row { row < row_count self.now }
        requires column { column < column_count self.now }
        ensures { result ≡ cost self.now row column };
}
