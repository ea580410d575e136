//! The program as a library: `run` takes the words of the command line, a source, and two sinks, and answers the exit status.
//!
//! It stands on all that it calls. The program calls `run_on_streams`, which promises over readers and writers of std what `run` does.
#![tactic(auto)]

mod accepts;
mod answers;
mod certifies;
mod checks;
mod command;
mod laws;
mod notes;
mod questions;
mod refusal;
mod serve;
mod solves;
mod statuses;
mod streams;
mod trial_words;
mod trials;
mod words;

pub use laws::law_of_limits;
pub use serve::run;
pub use statuses::{
    BAD_INPUT, LIMIT, NO, NO_MEMORY, NO_ROUTE, NO_SOLVER, READ_FAULT, USAGE, WRITE_FAULT, WRITTEN,
};
pub use streams::run_on_streams;
