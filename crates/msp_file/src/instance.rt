// The reader of instance texts, alone or at the front of other bytes.

pub(crate) mod arcs;
pub(crate) mod curve;
pub(crate) mod draft;
pub(crate) mod head;
pub(crate) mod job;
pub(crate) mod operations;
pub(crate) mod read;
