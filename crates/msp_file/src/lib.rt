//! The readers of instance texts and schedule texts, with the exact first fault.
//!
//! It stands on `msp_grammar`, whose texts it reads and by which lines are read. The layers above use that `read_instance` reads exactly
//! the instance texts of the grammar, `IsInstanceText`, each as its instance, and answers to another text its first fault, `IsFaultOf`;
//! that `read_front` reads such a text at the front of other bytes, `IsFrontText`; that `read_schedule` reads exactly the schedule texts,
//! `IsScheduleText`; and that bytes are a text exactly where they have no first fault, and have one value or one first fault alone
//! (`law_of_instance_texts`, `law_of_front_texts`, `law_of_schedule_texts`). What a caller names with these calls is re-exported here: the
//! types of texts and faults, the names of jobs, the printers, and the reader and printer of certificates, of the layers below.
#![tactic(auto)]

mod instance;
mod laws;
mod schedule;

pub use instance::read::{Front, read_front, read_instance, texts_are_read_one_way};
pub use laws::{law_of_front_texts, law_of_instance_texts, law_of_schedule_texts};
pub use msp_cert_text::{print_certificate, read_certificate};
pub use msp_grammar::{FileFault, Filed, Stated, What, print_instance, print_schedule};
pub use msp_text::{JobName, Names};
pub use schedule::read::{printed_schedules_are_read, read_schedule, schedules_are_read_one_way};
