//! The grammar of certificate texts, the printer, and the reader with the exact first fault.
//!
//! It stands on `msp_grammar`, by which lines are read, and on `msp_cert`, whose certificates it writes and reads. The layers above use
//! that `read_certificate` reads exactly the certificate texts, `IsCertificateText`, each as its certificate, and answers to another text
//! its first fault, `IsCertificateFaultOf`; that `print_certificate` gives `printed_certificate`, which is read as the certificate that was
//! printed (`printed_certificates_are_read`); and that bytes are a certificate text exactly where they have no first fault, and have one
//! certificate or one first fault alone (`law_of_certificate_texts`).
#![tactic(auto)]

mod columns;
mod evidence;
mod kinds;
mod laws;
mod listed;
mod printer;
mod read;
mod segments;

pub use kinds::{GREATEST_BOUND, GREATEST_LEVEL, MOST_LINES, kind_word};
pub use laws::{law_of_certificate_texts, law_of_limits};
pub use printer::print_certificate;
pub use read::{printed_certificates_are_read, read_certificate};
