// The names of jobs in fields.
ghost use Rattle.std.specs.Prelude.{◌≡◌, ◌<◌, length, bytes_eq, position, None, Err, IfOk};
ghost use Rattle.msp_class.specs.declared.list.TheConstants.{PLACES};
ghost use Rattle.msp_text.specs.JobName.{IsJobName};
ghost use Rattle.msp_grammar.specs.lines.Reading.{job_name_at, known_at};

use crate::lines::fault::{FileFault, What};
use msp_text::{JobName, Names, are_name_bytes};

/// The fault of bytes that are no job name.
fn name_fault(at: u32, bytes: &[u8]) -> FileFault
    requires { ¬ IsJobName bytes.now }
    ensures { job_name_at at bytes.now ≡ Err result }
{
    match bytes {
        [] => FileFault::Name { at },
        _ => if are_name_bytes(bytes) {
            FileFault::Limit {
                at,
                what: What::Name,
            }
        } else {
            FileFault::Name { at }
        },
    }
}

/// The name of a job.
#[tactic(auto, using(crate::proofs::reading::FieldLaws::name_again))]
pub fn job_name_at(at: u32, bytes: &[u8]) -> Result<JobName, FileFault>
    ensures { result ≡ job_name_at at bytes.now }
{
    match JobName::new(bytes) {
        Some(name) => Ok(name),
        None => Err(name_fault(at, bytes)),
    }
}

/// The fault of bytes that no job has as its name.
#[tactic(auto, using(crate::proofs::reading::NameReading::unknown_rules))]
fn unknown_fault(at: u32, names: &Names, bytes: &[u8]) -> FileFault
    requires { position (bytes_eq bytes.now) names.now ≡ None }
    ensures { known_at at names.now bytes.now ≡ Err result }
{
    match job_name_at(at, bytes) {
        Ok(_) => FileFault::Unknown { at },
        Err(fault) => fault,
    }
}

/// The number of the job of a name, from 0. Bytes that are found are a job name, so only the others are looked at.
#[tactic(auto, using(crate::proofs::reading::NameReading::known_rules))]
pub fn known_at(at: u32, names: &Names, bytes: &[u8]) -> Result<u32, FileFault>
    requires { length names.now < PLACES }
    ensures value { result ≡ known_at at names.now bytes.now }
    ensures within { IfOk result (λ job. job < length names.now) }
{
    match names.place_of(bytes) {
        Some(job) => Ok(job as u32),
        None => Err(unknown_fault(at, names, bytes)),
    }
}
