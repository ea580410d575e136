// The kinds of certificates, and the limits of their texts.
ghost use Rattle.std.specs.Prelude.{◌≡◌, bytes_eq};
ghost use Rattle.msp_cert_text.specs.CertificateText.{kind_of, kind_word};

use msp_cert::{MOST_ENTRIES, Proof};
use msp_class::MOST_JOBS;

/// The kind of a proof.
#[derive(Clone, Copy)]
pub(crate) enum Kind {
    Group,
    Machine,
    Line,
    Levels,
    Segments,
    Block,
    Prices,
}

/// The size of the greatest bound's numerator: at least the greatest value of a proof, and at most what `compare` takes.
pub const GREATEST_BOUND: u128 = 1_000_000_000_000_000_000_000_000;
/// The greatest level of a job.
pub const GREATEST_LEVEL: u32 = MOST_JOBS as u32;
/// The most lines between that of the kind and the last one: each stands for an entry of the proof.
pub const MOST_LINES: usize = MOST_ENTRIES;

/// The kind of a proof.
pub(crate) fn kind_of(proof: &Proof) -> Kind
    ensures { result ≡ kind_of proof.now }
{
    match proof {
        Proof::Group { .. } => Kind::Group,
        Proof::Machine { .. } => Kind::Machine,
        Proof::Line { .. } => Kind::Line,
        Proof::Levels { .. } => Kind::Levels,
        Proof::Segments { .. } => Kind::Segments,
        Proof::Block { .. } => Kind::Block,
        Proof::Prices { .. } => Kind::Prices,
    }
}

/// The word for the kind of a proof.
pub fn kind_word(proof: &Proof) -> &'static [u8]
    ensures { result.now ≡ kind_word (kind_of proof.now) }
{
    match kind_of(proof) {
        Kind::Group => b"group",
        Kind::Machine => b"machine",
        Kind::Line => b"line",
        Kind::Levels => b"levels",
        Kind::Segments => b"segments",
        Kind::Block => b"block",
        Kind::Prices => b"prices",
    }
}

/// Whether a word is the one that is looked for.
pub(crate) fn is_word(word: &[u8], wanted: &[u8]) -> bool
    ensures { result ≡ bytes_eq word.now wanted.now }
{
    *word == *wanted
}
