// The search for a free column for one more row.
ghost use Rattle.std.specs.Prelude.{◌≡◌, ◌≢◌, ◌+◌, ◌<◌, ◌≤◌, ℕ, All, AllPairs, Contains, IfOk, OnOk, length};
ghost use Rattle.std.specs.List.Sorted.{IsPermutation};
ghost use Rattle.msp_class.specs.declared.list.TheConstants.{PLACES};
ghost use Rattle.msp_assign.specs.Passing.{at};
ghost use Rattle.msp_assign.specs.Search.{greatest_charge, HasCharges, greatest_payment, sizes, paid, IsOwners, AreAll, IsOpenRow, IsUnderWay, IsNearest, AreNearest, IsLeastSoFar, IsRelaxed, IsShortened, IsWay, HasEdges};

use crate::Costs;
use std::alloc::{AllocError, Global};

/// Farther than any column.
const FAR: u128 = u128::MAX;

/// What the row pays at the column: the cost, and how far the column's price is below 0.
pub fn payment<C: Costs>(costs: &C, falls: &[u128], row: u32, column: u32) -> u128
    requires costs { HasCharges (C.row_count costs.now) (C.column_count costs.now) (C.cost costs.now) }
    requires falls { length falls.now ≡ C.column_count costs.now }
    requires low { (c : ℕ) → c < C.column_count costs.now → at falls.now c ≤ greatest_charge }
    requires row { row < C.row_count costs.now }
    requires column { column < C.column_count costs.now }
    ensures value { result ≡ paid (sizes (C.cost costs.now)) falls.now row column }
    ensures bound { result ≤ greatest_payment }
{
    costs.at(row, column).unsigned_abs() + falls[column as usize]
}

/// The row that has each column.
pub fn owners(
    alloc: Global,
    columns: u32,
    column_of: &[u32],
) -> Result<Vec<Option<u32>>, AllocError>
    requires few { length column_of.now < PLACES }
    requires inside { All (λ c. c < columns) column_of.now }
    ensures { IfOk result (λ owner. IsOwners columns column_of.now owner.items) }
{
    let mut owner = vec![in alloc; None; columns as usize]?;
    for row in 0..column_of.len() as u32 {
        owner[column_of[row as usize] as usize] = Some(row);
    }
    Ok(owner)
}

/// A row that the search has reached.
#[derive(Clone, Copy)]
pub struct Reached {
    /// The row.
    pub row: u32,
    /// Its place in the tree.
    pub place: usize,
    /// How far its column is from the new row.
    pub depth: u128,
    /// What it pays at its column.
    pub own: u128,
}

/// How far the column is over the row: as far as the row's own column, and what the row pays more.
fn way_over<C: Costs>(costs: &C, falls: &[u128], reached: Reached, column: u32) -> u128
    requires edges { HasEdges (C.row_count costs.now) (C.column_count costs.now) (C.cost costs.now) falls.now reached.row reached.depth reached.own }
    requires column { column < C.column_count costs.now }
    ensures { IsWay (sizes (C.cost costs.now)) falls.now reached.row reached.depth reached.own column result }
{
    reached.depth + (payment(costs, falls, reached.row, column) - reached.own)
}

/// The lesser of the column's distance and that over the row at the place of the tree, which the column keeps.
fn shorten(
    distance: &mut [u128],
    from: &mut [usize],
    column: usize,
    far: u128,
    place: usize,
) -> u128
    requires distances { column < length distance.old }
    requires places { column < length from.old }
    ensures { IsShortened far place distance.old from.old distance.new from.new column result }
{
    if far < distance[column] {
        distance[column] = far;
        from[column] = place;
        return far;
    }
    distance[column]
}

/// How far the nearest is of the columns that are as near as the row, where there are some of them.
fn least_so_far(near: usize, depth: u128) -> u128
    ensures { IsLeastSoFar near depth result }
{
    if near > 0 { depth } else { FAR }
}

/// Shortens the ways to the columns that are left, where they are shorter over the row, and says how far the nearest of them is. The first
/// `near` of them are as near as the row, so no way to them is shorter.
fn relax<C: Costs>(
    costs: &C,
    falls: &[u128],
    left: &[u32],
    near: usize,
    reached: Reached,
    distance: &mut [u128],
    from: &mut [usize],
) -> u128
    requires edges { HasEdges (C.row_count costs.now) (C.column_count costs.now) (C.cost costs.now) falls.now reached.row reached.depth reached.own }
    requires inside { All (λ c. c < C.column_count costs.now) left.now }
    requires apart { AllPairs (λ c d. c ≢ d) left.now }
    requires some { 0 < length left.now }
    requires distances { length distance.old ≡ C.column_count costs.now }
    requires places { length from.old ≡ C.column_count costs.now }
    requires near { AreNearest distance.old left.now near reached.depth }
    ensures relaxed { IsRelaxed (sizes (C.cost costs.now)) falls.now reached.row reached.place reached.depth reached.own left.now distance.old from.old distance.new from.new }
    ensures near { AreNearest distance.new left.now near result }
    ensures reached { (k : ℕ) × (k < length left.now) × (at distance.new (at left.now k) ≡ result) }
{
    let mut least = least_so_far(near, reached.depth);
    for k in near..left.len() {
        let column = left[k];
        let far = way_over(costs, falls, reached, column);
        let shortest = shorten(distance, from, column as usize, far, reached.place);
        least = least.min(shortest);
    }
    least
}

/// Puts the columns that are so far first, of those that are left, up to a free one, and says where the last of them stands. So far are
/// the nearest, and the first `before` of the columns already.
fn gather(
    left: &mut [u32],
    before: usize,
    far: u128,
    distance: &[u128],
    owner: &[Option<u32>],
) -> usize
    requires inside { All (λ c. c < length distance.now) left.old }
    requires owners { length owner.now ≡ length distance.now }
    requires near { AreNearest distance.now left.old before far }
    requires reached { (k : ℕ) × (k < length left.old) × (at distance.now (at left.old k) ≡ far) }
    ensures same { IsPermutation left.old left.new }
    ensures nearest { IsNearest distance.now left.new result }
{
    let mut near = before;
    for k in before..left.len() {
        let column = left[k] as usize;
        if distance[column] != far {
            continue;
        }
        left.swap(k, near);
        if owner[column].is_none() {
            return near;
        }
        near += 1;
    }
    near - 1
}

/// The search for a free column.
#[derive(Drop)]
pub struct Search {
    /// How far each column is from the new row.
    pub distance: Vec<u128>,
    /// The place in the tree of the row from which each column is reached.
    pub from: Vec<usize>,
    /// The columns whose distance is not final, the nearest ones first.
    pub left: Vec<u32>,
    /// The rows that were reached, the new one first.
    pub tree: Vec<u32>,
    /// Where the last of the nearest columns stands.
    pub nearest: usize,
}

/// Goes from the row to the columns that are left, of which the first `near` are as near as the row.
fn spread<C: Costs>(
    costs: &C,
    falls: &[u128],
    owner: &[Option<u32>],
    reached: Reached,
    near: usize,
    search: &mut Search,
)
    requires edges { HasEdges (C.row_count costs.now) (C.column_count costs.now) (C.cost costs.now) falls.now reached.row reached.depth reached.own }
    requires owners { length owner.now ≡ C.column_count costs.now }
    requires inside { All (λ c. c < C.column_count costs.now) search.old.left.items }
    requires apart { AllPairs (λ c d. c ≢ d) search.old.left.items }
    requires some { 0 < length search.old.left.items }
    requires distances { length search.old.distance.items ≡ C.column_count costs.now }
    requires places { length search.old.from.items ≡ C.column_count costs.now }
    requires near { AreNearest search.old.distance.items search.old.left.items near reached.depth }
    ensures relaxed { IsRelaxed (sizes (C.cost costs.now))
        falls.now reached.row reached.place reached.depth reached.own search.old.left.items search.old.distance.items search.old.from.items search.new.distance.items search.new.from.items }
    ensures same { IsPermutation search.old.left.items search.new.left.items }
    ensures nearest { IsNearest search.new.distance.items search.new.left.items search.new.nearest }
    ensures tree { search.new.tree.items ≡ search.old.tree.items }
    ensures distances { length search.new.distance.items ≡ length search.old.distance.items }
    ensures places { length search.new.from.items ≡ length search.old.from.items }
{
    let far = relax(
        costs,
        falls,
        search.left.as_slice(),
        near,
        reached,
        search.distance.as_mut_slice(),
        search.from.as_mut_slice(),
    );
    search.nearest = gather(
        search.left.as_mut_slice(),
        near,
        far,
        search.distance.as_slice(),
        owner,
    );
}

/// The numbers of all columns.
fn all_columns(alloc: Global, columns: u32) -> Result<Vec<u32>, AllocError>
    ensures { IfOk result (λ all. AreAll columns all.items) }
{
    let mut all = Vec::new(alloc);
    for column in 0..columns {
        all.push(column)?;
    }
    Ok(all)
}

/// The search as it begins: each column is reached from the new row.
fn begun<C: Costs>(
    alloc: Global,
    costs: &C,
    falls: &[u128],
    column_of: &[u32],
    owner: &[Option<u32>],
) -> Result<Search, AllocError>
    requires row { IsOpenRow (C.row_count costs.now) (C.column_count costs.now) (C.cost costs.now) falls.now column_of.now }
    requires owners { length owner.now ≡ C.column_count costs.now }
    ensures { IfOk result (IsUnderWay (sizes (C.cost costs.now)) (C.column_count costs.now) falls.now column_of.now) }
{
    let columns = costs.columns();
    let row = column_of.len() as u32;
    let mut tree = Vec::new(alloc);
    tree.push(row)?;
    let mut search = Search {
        distance: vec![in alloc; FAR; columns as usize]?,
        from: vec![in alloc; 0; columns as usize]?,
        left: all_columns(alloc, columns)?,
        tree,
        nearest: 0,
    };
    let root = Reached {
        row,
        place: 0,
        depth: 0,
        own: 0,
    };
    spread(costs, falls, owner, root, 0, &mut search);
    Ok(search)
}

/// Settles a nearest column, and goes on from the row that has it.
fn settle<C: Costs>(
    costs: &C,
    falls: &[u128],
    column_of: &[u32],
    owner: &[Option<u32>],
    search: &mut Search,
    row: u32,
) -> Result<(), AllocError>
    requires row { IsOpenRow (C.row_count costs.now) (C.column_count costs.now) (C.cost costs.now) falls.now column_of.now }
    requires owners { length owner.now ≡ C.column_count costs.now }
    requires search { IsUnderWay (sizes (C.cost costs.now)) (C.column_count costs.now) falls.now column_of.now search.old }
    requires inside { row < length column_of.now }
    requires has { at column_of.now row ≡ at search.old.left.items search.old.nearest }
    ensures search { OnOk result (IsUnderWay (sizes (C.cost costs.now)) (C.column_count costs.now) falls.now column_of.now search.new) }
    ensures fewer { OnOk result (length search.new.left.items + 1 ≡ length search.old.left.items) }
{
    let near = search.nearest;
    let column = search.left.swap_remove(near);
    let reached = Reached {
        row,
        place: search.tree.len(),
        depth: search.distance[column as usize],
        own: payment(costs, falls, row, column),
    };
    search.tree.push(row)?;
    spread(costs, falls, owner, reached, near, search);
    Ok(())
}

/// Goes from a nearest column to the row that has it, until a nearest column is free.
pub fn find_free<C: Costs>(
    alloc: Global,
    costs: &C,
    falls: &[u128],
    column_of: &[u32],
    owner: &[Option<u32>],
) -> Result<Search, AllocError>
    requires row { IsOpenRow (C.row_count costs.now) (C.column_count costs.now) (C.cost costs.now) falls.now column_of.now }
    requires owner { IsOwners (C.column_count costs.now) column_of.now owner.now }
    ensures search { IfOk result (IsUnderWay (sizes (C.cost costs.now)) (C.column_count costs.now) falls.now column_of.now) }
    ensures free { IfOk result (λ s. ¬ Contains column_of.now (at s.left.items s.nearest)) }
{
    let mut search = begun(alloc, costs, falls, column_of, owner)?;
    'reached: while let Some(row) = owner[search.left[search.nearest] as usize] {
        settle(costs, falls, column_of, owner, &mut search, row)?;
    }
    Ok(search)
}
