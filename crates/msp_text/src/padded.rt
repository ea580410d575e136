// Short bytes in a field of one size.
ghost use Rattle.std.specs.Prelude.{◌≡◌, ◌-◌, ◌≤◌, ◌++◌, ◌∷◌, [], length, replicate, bytes_eq};
ghost use Rattle.std.proofs.Common.{ap};
ghost use Rattle.std.specs.Cmp.{partial_equiv_from_equiv};
ghost use Rattle.std.specs.Cmp.Lexicographic.{bytes_decides, nat_list_eq_equiv};
ghost use Rattle.msp_text.specs.declared.job_name.TheConstants.{LONGEST_NAME};

use crate::job_name::LONGEST_NAME;
use std::hash::{Hash, Hasher};
use std::marker::Model;

/// As many bytes as a job name may have, whichever they are, with zeros after them. Contracts see them as the bytes.
#[derive(Clone, Copy)]
pub(crate) struct Padded {
    buffer: [u8; LONGEST_NAME],
    len: usize,
}

impl Model for Padded {
    ghost use Rattle.std.specs.Prelude.{◌≡◌, ℕ, ◌-◌, List, ◌++◌, length, take, replicate};
    ghost use Rattle.msp_text.specs.declared.job_name.TheConstants.{LONGEST_NAME};

    ghost Value = { List ℕ };

    ghost view = { λ p. take p.len p.buffer };

    ghost invariant = { λ p. (length (take p.len p.buffer) ≡ p.len) × (p.buffer ≡ take p.len p.buffer ++ replicate (LONGEST_NAME - p.len) 0) };

    ghost inverse = { λ w. record { buffer = w ++ replicate (LONGEST_NAME - length w) 0; len = length w } };
}

/// The bytes, with zeros after them.
fn with_zeros(bytes: &[u8]) -> [u8; LONGEST_NAME]
    requires { length bytes.now ≤ LONGEST_NAME }
    ensures { result ≡ bytes.now ++ replicate (LONGEST_NAME - length bytes.now) 0 }
{
    let mut buffer = [0; LONGEST_NAME];
    buffer[..bytes.len()].copy_from_slice(bytes);
    buffer
}

impl Padded {
    pub(crate) fn new(bytes: &[u8]) -> Padded
        requires { length bytes.now ≤ LONGEST_NAME }
        ensures { result ≡ bytes.now }
    {
        Padded {
            buffer: with_zeros(bytes),
            len: bytes.len(),
        }
    }

    pub(crate) fn bytes(&self) -> &[u8]
        ensures { result.now ≡ self.now }
    {
        &self.buffer[..self.len]
    }
}

impl PartialEq for Padded {
    ghost eq = { λ a b. bytes_eq a b };

    ghost laws = { partial_equiv_from_equiv nat_list_eq_equiv };

    #[tactic(auto, using(crate::proofs::Padding::same_padded))]
    fn eq(&self, other: &Padded) -> bool {
        self.len == other.len && self.buffer == other.buffer
    }
}

impl Eq for Padded {
    ghost laws = { nat_list_eq_equiv };
}

impl Hash for Padded {
    ghost hash_input = { λ bytes. bytes ∷ [] };

    ghost respects_eq = { λ a b h. ap (λ bytes. bytes ∷ []) ((bytes_decides a b).0 h) };

    fn hash<H: Hasher>(&self, state: &mut H) {
        state.write(self.bytes());
    }
}
