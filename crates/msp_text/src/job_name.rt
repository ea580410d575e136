// The names of jobs.
ghost use Rattle.std.specs.Prelude.{◌≡◌, ◌∷◌, [], IsTrue, ◌↔◌, All, SomeIff, bytes_eq};
ghost use Rattle.std.proofs.Common.{ap};
ghost use Rattle.std.specs.List.{list_all};
ghost use Rattle.std.specs.Cmp.{partial_equiv_from_equiv};
ghost use Rattle.std.specs.Cmp.Lexicographic.{bytes_decides, nat_list_eq_equiv};
ghost use Rattle.msp_text.specs.JobName.{is_name_byte, IsJobName};

use crate::padded::Padded;
use std::hash::{Hash, Hasher};
use std::marker::Model;

/// The most bytes of a job name.
pub const LONGEST_NAME: usize = 32;

/// The name of a job: 1 to 32 bytes, each a letter or a digit of ASCII or one of `_`, `-`, `.`. Contracts see it as its bytes.
#[derive(Clone, Copy)]
pub struct JobName {
    pub(crate) text: Padded,
}

impl Model for JobName {
    ghost use Rattle.std.specs.Prelude.{ℕ, List};

    ghost Value = { List ℕ };

    ghost use Rattle.msp_text.specs.JobName.{IsJobName};

    ghost view = { λ n. n.text };

    ghost invariant = { λ n. IsJobName n.text };

    ghost inverse = { λ w. record { text = w } };
}

/// Whether a byte may stand in a name.
fn is_name_byte(byte: u8) -> bool
    ensures { result ≡ is_name_byte byte }
{
    matches!(byte, b'A'..=b'Z' | b'a'..=b'z' | b'0'..=b'9' | b'_' | b'-' | b'.')
}

/// Whether all bytes may stand in a name.
pub fn are_name_bytes(bytes: &[u8]) -> bool
    ensures value { result ≡ list_all is_name_byte bytes.now }
    ensures all { IsTrue result ↔ All (λ b. IsTrue (is_name_byte b)) bytes.now }
{
    bytes.iter().all(|byte| is_name_byte(*byte))
}

fn is_job_name(bytes: &[u8]) -> bool
    ensures { IsTrue result ↔ IsJobName bytes.now }
{
    !bytes.is_empty() && bytes.len() <= LONGEST_NAME && are_name_bytes(bytes)
}

impl JobName {
    /// The name of these bytes. None comes exactly where they are no job name.
    pub fn new(bytes: &[u8]) -> Option<JobName>
        ensures { SomeIff result (IsJobName bytes.now) bytes.now }
    {
        if !is_job_name(bytes) {
            return None;
        }
        Some(JobName {
            text: Padded::new(bytes),
        })
    }

    /// The bytes of the name.
    pub fn bytes(&self) -> &[u8]
        ensures value { result.now ≡ self.now }
        ensures name { IsJobName self.now }
    {
        self.text.bytes()
    }
}

impl PartialEq for JobName {
    ghost eq = { λ a b. bytes_eq a b };

    ghost laws = { partial_equiv_from_equiv nat_list_eq_equiv };

    fn eq(&self, other: &JobName) -> bool {
        self.text == other.text
    }
}

impl Eq for JobName {
    ghost laws = { nat_list_eq_equiv };
}

impl Hash for JobName {
    ghost hash_input = { λ name. name ∷ [] };

    ghost respects_eq = { λ a b h. ap (λ bytes. bytes ∷ []) ((bytes_decides a b).0 h) };

    fn hash<H: Hasher>(&self, state: &mut H) {
        self.text.hash(state);
    }
}
