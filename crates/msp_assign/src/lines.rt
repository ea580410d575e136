// Columns that stand in lines.
ghost use Rattle.std.specs.Prelude.{◌≡◌, ◌+◌, ◌*◌, ◌<◌, ◌≤◌, ℕ, ◌≤ℤ◌};

use crate::Costs;

/// Columns that stand in lines of one length, line after line: column `line * length + place` is the one that `place` columns of its
/// line stand before. Along a line they cost each row no less from one to the next.
pub trait Lines: Costs {
    /// How many lines.
    ghost line_count: { Self → ℕ };

    /// How many columns a line has.
    ghost line_length: { Self → ℕ };

    fn lines(&self) -> u32
        ensures { result ≡ line_count self.now };

    fn length(&self) -> u32
        ensures { result ≡ line_length self.now };

    /// What the row costs at the place of the line.
    fn on_line(&self, row: u32, line: u32, place: u32) -> i128
        requires row { row < Self.row_count self.now }
        requires line { line < line_count self.now }
        requires place { place < line_length self.now }
        ensures { result ≡ Self.cost self.now row (line * line_length self.now + place) };

    /// The lines have all columns.
    ghost whole: { (self : Self) → line_count self * line_length self ≡ Self.column_count self };

    /// Costs rise along a line.
    ghost rise: { (self : Self) (r l j k : ℕ) → l < line_count self → j ≤ k → k < line_length self → Self.cost self r (l * line_length self + j) ≤ℤ Self.cost self r (l * line_length self + k) };
}
