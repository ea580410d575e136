// One more row: the prices move, and the columns are passed on along the way to the free one.
ghost use Rattle.std.specs.Prelude.{◌≡◌, ◌≢◌, ◌+◌, ◌<◌, ◌≤◌, ℕ, All, AllPairs, Contains, IfOk, length};
ghost use Rattle.msp_class.specs.declared.list.TheConstants.{PLACES};
ghost use Rattle.msp_assign.specs.Passing.{at};
ghost use Rattle.msp_assign.specs.Search.{greatest_charge, HasCharges, greatest_payment, sizes, IsPlaced, IsLowered, IsOneMore};

use crate::search::{find_free, owners};
use crate::{Costs, pass_on};
use std::alloc::{AllocError, Global};

/// Lowers the prices of the columns of the rows of the tree, which are nearer than the free one, by as much as they are nearer.
fn lower(falls: &mut [u128], distance: &[u128], far: u128, column_of: &[u32], tree: &[u32])
    requires some { 1 ≤ length tree.now }
    requires rows { (k : ℕ) → 1 ≤ k → k < length tree.now → at tree.now k < length column_of.now }
    requires once { (j k : ℕ) → j < k → k < length tree.now → at tree.now j ≢ at tree.now k }
    requires apart { AllPairs (λ c d. c ≢ d) column_of.now }
    requires inside { All (λ c. c < length falls.old) column_of.now }
    requires sizes { length distance.now ≡ length falls.old }
    requires low { (c : ℕ) → c < length falls.old → at falls.old c ≤ greatest_charge }
    requires near { far ≤ greatest_payment }
    ensures { IsLowered far distance.now column_of.now tree.now falls.old falls.new }
{
    for place in 1..tree.len() {
        let column = column_of[tree[place] as usize] as usize;
        falls[column] += far.saturating_sub(distance[column]);
    }
}

/// Gives one more row a column of its own: over the shortest way to a free column, with the prices that follow. It says which column was
/// free.
pub fn place_row<C: Costs>(
    alloc: Global,
    costs: &C,
    falls: &mut [u128],
    column_of: &mut Vec<u32>,
) -> Result<u32, AllocError>
    requires costs { HasCharges (C.row_count costs.now) (C.column_count costs.now) (C.cost costs.now) }
    requires placed { IsPlaced (sizes (C.cost costs.now)) (C.column_count costs.now) falls.old column_of.old.items }
    requires more { length column_of.old.items < C.row_count costs.now }
    requires free { (c : ℕ) × (c < C.column_count costs.now) × ¬ Contains column_of.old.items c }
    requires few { length column_of.old.items < PLACES }
    ensures placed { IfOk result (λ _. IsPlaced (sizes (C.cost costs.now)) (C.column_count costs.now) falls.new column_of.new.items) }
    ensures longer { IfOk result (λ _. length column_of.new.items ≡ length column_of.old.items + 1) }
    ensures taken { IfOk result (IsOneMore (C.column_count costs.now) column_of.old.items falls.new column_of.new.items) }
{
    let owner = owners(alloc, costs.columns(), column_of.as_slice())?;
    let found = find_free(alloc, costs, falls, column_of.as_slice(), owner.as_slice())?;
    let free = found.left[found.nearest];
    let far = found.distance[free as usize];
    lower(
        falls,
        found.distance.as_slice(),
        far,
        column_of.as_slice(),
        found.tree.as_slice(),
    );
    column_of.push(free)?;
    pass_on(
        column_of.as_mut_slice(),
        found.from.as_slice(),
        found.tree.as_slice(),
    );
    Ok(free)
}
