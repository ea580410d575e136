// The search for a way from a row to a column whose row holds nothing there.
ghost use Rattle.std.specs.Prelude.{◌≡◌, ◌+◌, ◌<◌, ◌≤◌, ℕ, IfOk, true, false, length};
ghost use Rattle.msp_assign.specs.Passing.{at};
ghost use Rattle.msp_timetable.specs.Square.{stock, IsSquare, IsBalanced, IsPermuted, IsOwners};
ghost use Rattle.msp_timetable.specs.Steps.{start_of, Reaches, Finds};

use crate::square::{Square, has_stock};
use std::alloc::{AllocError, Global};

/// The column of each row, and the row of each column.
#[derive(Drop)]
pub struct Seats {
    pub columns: Vec<u32>,
    pub owner: Vec<usize>,
}

/// What the search has reached.
#[derive(Drop)]
pub struct Search {
    /// The place in the tree of the row from which each column is reached; the size of the square where it is not.
    pub from: Vec<usize>,
    /// The rows that are reached.
    pub tree: Vec<u32>,
    /// The column whose row holds nothing there.
    pub free: usize,
}

/// Reaches the column from the row at the place, if the row holds stock there, and says whether the column's own row holds none there.
/// If it does, that row is reached too.
fn reach(
    square: &Square,
    seats: &Seats,
    search: &mut Search,
    place: usize,
    column: usize,
) -> Result<bool, AllocError>
    requires square { IsSquare square.now }
    requires permuted { IsPermuted square.now.size seats.now.columns.items }
    requires owners { IsOwners square.now.size seats.now.columns.items seats.now.owner.items }
    requires column { column < square.now.size }
    requires here { place < length search.old.tree.items }
    requires search { Reaches square.now seats.now (start_of search.old) place column search.old }
    ensures search { IfOk result (λ found. found ≡ false → Reaches square.now seats.now (start_of search.old) place (column + 1) search.new) }
    ensures longer { IfOk result (λ _. length search.old.tree.items ≤ length search.new.tree.items) }
    ensures found { IfOk result (λ found. found ≡ true → Finds square.now seats.now (start_of search.old) search.new) }
{
    if search.from[column] < square.size
        || !has_stock(square, search.tree[place] as usize, column)
    {
        return Ok(false);
    }
    search.from[column] = place;
    let row = seats.owner[column];
    if !has_stock(square, row, column) {
        search.free = column;
        return Ok(true);
    }
    search.tree.push(row as u32)?;
    Ok(false)
}

/// Reaches all columns in which the row at the place holds stock, up to one whose own row holds none there.
fn grow(
    square: &Square,
    seats: &Seats,
    search: &mut Search,
    place: usize,
) -> Result<bool, AllocError>
    requires square { IsSquare square.now }
    requires permuted { IsPermuted square.now.size seats.now.columns.items }
    requires owners { IsOwners square.now.size seats.now.columns.items seats.now.owner.items }
    requires here { place < length search.old.tree.items }
    requires search { Reaches square.now seats.now (start_of search.old) place 0 search.old }
    ensures search { IfOk result (λ found. found ≡ false → Reaches square.now seats.now (start_of search.old) place square.now.size search.new) }
    ensures longer { IfOk result (λ found. found ≡ false → length search.old.tree.items ≤ length search.new.tree.items) }
    ensures found { IfOk result (λ found. found ≡ true → Finds square.now seats.now (start_of search.old) search.new) }
{
    for column in 0..square.size {
        if reach(square, seats, search, place, column)? {
            return Ok(true);
        }
    }
    Ok(false)
}

/// Goes from the row, which holds nothing at its column, from row to row until a column is reached whose own row holds nothing there.
pub fn find(alloc: Global, square: &Square, seats: &Seats, row: usize) -> Result<Search, AllocError>
    requires square { IsSquare square.now }
    requires permuted { IsPermuted square.now.size seats.now.columns.items }
    requires owners { IsOwners square.now.size seats.now.columns.items seats.now.owner.items }
    requires row { row < square.now.size }
    requires bare { stock square.now row (at seats.now.columns.items row) ≡ 0 }
    requires balanced { (left : ℕ) × (0 < left) × IsBalanced square.now.size (stock square.now) left }
    ensures { IfOk result (λ s. Finds square.now seats.now row s) }
{
    let mut tree = Vec::new(alloc);
    tree.push(row as u32)?;
    let from = vec![in alloc; square.size; square.size]?;
    let mut search = Search {
        from,
        tree,
        free: 0,
    };
    let mut place = 0;
    'places: loop {
        if grow(square, seats, &mut search, place)? {
            return Ok(search);
        }
        place += 1;
    }
}
