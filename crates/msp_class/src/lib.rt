//! The classes of scheduling problems in the three-field notation, their ranks, the facts of their parts, the list that the other
//! crates' structs hold, and the sizes from which the limits of all crates follow.
//!
//! It stands on std alone. The layers above use that a `List` is seen as its list, that a refused push changes nothing, that
//! `rank` and `unrank` are inverse, and the facts of environments, orders and criteria, which stand nowhere else.
#![tactic(auto)]

mod class;
mod criteria;
mod environments;
mod limits;
mod list;
mod orders;
mod ranks;
mod sizes;

pub use class::{Class, Crit, Env, Order, Times};
pub use criteria::{is_greatest, uses_curve, uses_due, uses_weight};
pub use environments::{EnvKind, env_kind, fixed_machines, is_mirror, is_shop, most_operations};
pub use limits::law_of_limits;
pub use list::{List, PLACES};
pub use orders::turned;
pub use ranks::{CLASSES, rank, unrank};
pub use sizes::{
    GREATEST, GREATEST_EQUAL_TIME, GREATEST_MULTIPLE, GREATEST_SPEED, GREATEST_UNIT, MOST_ARCS,
    MOST_JOBS, MOST_MACHINES, MOST_OPERATIONS, MOST_PIECES, MOST_SHORT_OPERATIONS, MOST_STEPS,
};
use std::alloc::{AllocError, AllocFailed};

/// Out of memory, of a call that can refuse for nothing else.
#[derive(Clone, Copy, Debug, PartialEq, Eq)]
pub struct NoMemory;

impl From<AllocError> for NoMemory {
    fn from(_refusal: AllocError) -> NoMemory {
        NoMemory
    }
}

impl<T: Drop> From<AllocFailed<T>> for NoMemory {
    fn from(_refusal: AllocFailed<T>) -> NoMemory {
        NoMemory
    }
}
