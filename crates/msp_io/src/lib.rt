//! Sources and sinks of bytes, and the two calls that read and write a whole text through them.
//!
//! A source or a sink answers `Failed` only where its count of faults rose in the call, so a caller can prove
//! which answers of its own came from outside. In memory each call is exact: which calls fail, how many bytes
//! move, and which. Over std's readers and writers the adapters count the bytes that pass, and what went wrong.
//!
//! The crate stands on std alone. The layer above uses the contracts of the traits `Source` and `Sink`
//! and of `read_all` and `write_all`: nothing is read behind the first end or behind a failure, nothing is
//! written behind a failure, what passed before is named, and a fault comes only where a count rose.
#![tactic(auto)]

mod laws;
mod memory_sink;
mod memory_source;
mod sink;
mod source;
mod std_io;
mod whole;

pub use laws::law_of_limits;
pub use memory_sink::{MemorySink, NoMemory, SureSink};
pub use memory_source::{MemorySource, SureSource};
pub use sink::Sink;
pub use source::{Failed, Source};
pub use std_io::{StdSink, StdSource};
pub use whole::{GREATEST_LIMIT, Taken, WriteFault, read_all, write_all};
