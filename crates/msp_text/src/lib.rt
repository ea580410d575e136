//! Pieces of text: bytes and decimal numbers put at the end of a text, and numbers read from one; and the names of jobs, with the lists of
//! distinct names that instances have.
//!
//! It stands on `msp_class`, `indexmap` and `itoa`. The layers above use that what is put is exactly the text of the value, and that a
//! number is read exactly where the bytes spell it; that a `JobName` is seen as its bytes, which are a job name (`IsJobName`), and that
//! `Names` is seen as a list of distinct job names (`AreDistinct`), in which a name is found by its hash.
#![tactic(auto)]

mod job_name;
mod laws;
mod names;
mod number;
mod padded;
mod parts;
mod pieces;

pub use job_name::{JobName, LONGEST_NAME, are_name_bytes};
pub use laws::law_of_limits;
pub use names::Names;
pub use number::{Spelled, read_number};
pub use parts::{Part, put_all};
pub use pieces::{put, put_integer, put_number};
