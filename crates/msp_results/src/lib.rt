//! The file of known results, in two versions: a header and one record of CSV for each entry.
//!
//! It stands on `msp_name`, `msp_closure` and `csv`. The layer above uses that `read_results` gives the entries exactly where the
//! records of the bytes are the header and these entries (`ResultsOf`), and else the first fault, and that bytes have one list of entries
//! or one first fault alone (`law_of_results`).
#![tactic(auto)]

mod entries;
mod fault;
mod laws;
mod limits;
mod read;
mod records;
mod version;

pub use fault::ResultFault;
pub use laws::{law_of_limits, law_of_results};
pub use limits::{LONGEST_FILE, LONGEST_SOURCE, MOST_ENTRIES};
pub use read::read_results;
