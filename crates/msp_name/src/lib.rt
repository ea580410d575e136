//! The spellings of a class's name: reading them with the exact first fault and its text, and printing the canonical one.
//!
//! It stands on `msp_class` and `itoa`. The layers above use that `parse` gives a class exactly where the bytes are one of its spellings
//! (`NameOf`), and that what `print` gives is such a spelling.
#![tactic(auto)]

mod fault;
mod laws;
mod reader;
mod short_text;
mod text;
mod words;

pub use fault::{FAULT_ROOM, FaultText, LONGEST_FAULT, NameFault};
pub use laws::law_of_limits;
pub use reader::parse;
pub use short_text::ShortText;
pub use text::{LONGEST_CLASS_NAME, NAME_ROOM, NameText, print};
