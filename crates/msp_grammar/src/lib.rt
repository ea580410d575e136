//! The grammar of instance texts and schedule texts, the printers, and how the lines of texts are read.
//!
//! It stands on `msp_text`, `msp_name`, `msp_instance` and `msp_pieces`. The layers above use the definitions: that
//! bytes are a text of an instance (`IsInstanceText`), and the text of a schedule (`schedule_text`); that `print_instance` and
//! `print_schedule` give exactly `instance_text` and `schedule_text`, the first of which is then an instance text; that
//! `put_fraction` and `put_name` put their text at the end of another one; and, for the readers, which lines and keys the texts of a class
//! have.
//!
//! The readers share what stands in `lines`: `line_at` and its kin take the lines of a text and their fields from left to right, and
//! answer as the definitions in `specs/lines/` say, or with the fault of the line, a `FileFault`, whose text is `file_text`.
#![tactic(auto)]

mod filed;
mod instance_printer;
mod laws;
mod layout;
mod limits;
mod lines;
mod schedule_printer;

pub use filed::{Filed, Stated};
pub use instance_printer::print_instance;
pub use laws::law_of_limits;
pub use layout::{
    has_one_time, has_order, has_route, has_speeds, has_time_key, has_time_line, has_times,
    has_times_line,
};
pub use limits::{GREATEST_COST, GREATEST_DENOMINATOR};
pub use lines::cost::cost_line_at;
pub use lines::fault::{FileFault, What};
pub use lines::limits::{LAST_LINE, MOST_BYTES};
pub use lines::line::{
    count_fields, end_line, field_line_at, line_at, next_field, number_line_at, split_word,
    two_fields, word_line_at, worded_at,
};
pub use lines::name::{job_name_at, known_at};
pub use lines::number::{integer_at, natural_at, ordinal_at, signed_at, wide_at};
pub use lines::place::Lines;
pub use schedule_printer::{print_schedule, put_fraction, put_name};
