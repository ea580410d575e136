// The columns are passed on along the way to a free one.
ghost use Rattle.msp_assign.specs.Passing.{IsTree, IsPassedOn};

/// The first row of the tree has a column that is to go to the row from which it is reached. That row's column goes to the row from
/// which it is reached, and so on to the first row.
pub fn pass_on(columns: &mut [u32], from: &[usize], tree: &[u32])
    requires { IsTree columns.old from.now tree.now }
    ensures { IsPassedOn columns.old from.now tree.now columns.new }
{
    let first = tree[0] as usize;
    let mut place = from[columns[first] as usize];
    'back: while place > 0 {
        let row = tree[place] as usize;
        place = from[columns[row] as usize];
        columns.swap(row, first);
    }
}
