// The reader of schedule texts.

pub(crate) mod read;
