//! Assignment with prices: each row gets a column of its own at least cost, and prices show that no other assignment costs less.
//!
//! It stands on `msp_class`. The layers above use the clauses of `pass_on`, the step along an augmenting path, by which the rows of a path
//! pass on their columns (the columns are the same ones in another order, and each row keeps its own or has one that is reached from it);
//! of `assign`, of `assign_from` where prices to begin from are known
//! (`falls_backward` finds some where columns are moments), and of `assign_on_lines` where columns stand in lines along which costs rise:
//! the prices of a row and a column add up to at most the cost, and to the cost where the row has the column; some column price is 0; and
//! no assignment costs less.
#![tactic(auto)]

mod assignment;
mod augmenting;
mod backward;
mod column;
mod costs;
mod lines;
mod placement;
mod placing;
mod prices;
mod raised;
mod search;
mod single;
mod square;
mod stored;
mod view;

pub use assignment::{
    Assignment, MOST_COLUMNS, MOST_ROWS, assign, assign_from, assign_on_lines, law_of_limits,
};
pub use augmenting::pass_on;
pub use backward::{Dated, falls_backward};
pub use costs::Costs;
pub use lines::Lines;
pub use stored::Stored;
