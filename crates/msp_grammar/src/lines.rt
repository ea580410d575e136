// The lines of texts: what the readers share, and the faults.

pub(crate) mod cost;
pub(crate) mod fault;
pub(crate) mod limits;
pub(crate) mod line;
pub(crate) mod name;
pub(crate) mod number;
pub(crate) mod place;
