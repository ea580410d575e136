// The reader of certificate texts.
ghost use Rattle.std.specs.Prelude.{◌≡◌, ◌<◌, ◌≤◌, length, IfOk, IfErr, Ok};
ghost use Rattle.msp_class.specs.declared.list.TheConstants.{PLACES};
ghost use Rattle.msp_cert.specs.declared.Certificate.{Certificate as CertificateValue};
ghost use Rattle.msp_grammar.specs.declared.lines.limits.TheConstants.{MOST_BYTES, LAST_LINE};
ghost use Rattle.msp_grammar.specs.lines.Answers.{Gives};
ghost use Rattle.msp_cert_text.specs.CertificateText.{IsCertificateText};
ghost use Rattle.msp_cert_text.specs.Reading.{kind_in, kind_at, said_of, evidence_at, certified_at, certificate_at};
ghost use Rattle.msp_cert_text.specs.Steps.{later_kind_in};
ghost use Rattle.msp_cert_text.specs.Answers.{IsCertificateFaultOf, IsCertificateFault, CertificatesReadAgain};
ghost use Rattle.msp_grammar.specs.lines.Steps.{Moves, parts_of, place_of};

use crate::evidence::proof_at;
use crate::kinds::{GREATEST_BOUND, Kind, is_word};
use msp_cert::Certificate;
use msp_grammar::{
    FileFault, LAST_LINE, Lines, MOST_BYTES, cost_line_at, field_line_at, word_line_at,
};
use msp_instance::Instance;
use msp_pieces::Frac;
use msp_text::Names;
use std::alloc::Global;

/// The kind of a word, of the last three.
fn later_kind_in(word: &[u8]) -> Option<Kind>
    ensures { result ≡ later_kind_in word.now }
{
    if is_word(word, b"segments") {
        return Some(Kind::Segments);
    }
    if is_word(word, b"block") {
        return Some(Kind::Block);
    }
    if is_word(word, b"prices") {
        return Some(Kind::Prices);
    }
    None
}

/// The kind of a word.
fn kind_in(word: &[u8]) -> Option<Kind>
    ensures { result ≡ kind_in word.now }
{
    if is_word(word, b"group") {
        return Some(Kind::Group);
    }
    if is_word(word, b"machine") {
        return Some(Kind::Machine);
    }
    if is_word(word, b"line") {
        return Some(Kind::Line);
    }
    if is_word(word, b"levels") {
        return Some(Kind::Levels);
    }
    later_kind_in(word)
}

#[tactic(auto, unfolding(crate::specs::Reading::kind_at))]
fn kind_at(lines: &mut Lines<'_>) -> Result<Kind, FileFault>
    ensures { Moves (λ k. k) result (place_of lines.new) (kind_at (place_of lines.old)) }
{
    let at = lines.at;
    let field = field_line_at(lines, b"kind")?;
    match kind_in(field) {
        Some(kind) => Ok(kind),
        None => Err(FileFault::Key { at }),
    }
}

/// Reads the lines after that of the bound.
#[tactic(auto, unfolding(crate::specs::Reading::evidence_at))]
fn evidence_at(
    alloc: Global,
    names: &Names,
    machines: u32,
    bound: Frac,
    lines: &mut Lines<'_>,
) -> Result<Certificate, FileFault>
    requires { length names.now < PLACES }
    ensures { Moves said_of result (place_of lines.new) (evidence_at names.now machines (parts_of bound) (place_of lines.old)) }
{
    let kind = kind_at(lines)?;
    let proof = proof_at(alloc, names, machines, kind, lines)?;
    Ok(Certificate { bound, proof })
}

/// Reads the lines of one certificate.
#[tactic(auto, unfolding(crate::specs::Reading::certified_at))]
fn certified_at(
    alloc: Global,
    names: &Names,
    machines: u32,
    lines: &mut Lines<'_>,
) -> Result<Certificate, FileFault>
    requires { length names.now < PLACES }
    ensures { Moves said_of result (place_of lines.new) (certified_at names.now machines (place_of lines.old)) }
{
    word_line_at(lines, b"certificate")?;
    let bound = cost_line_at(lines, b"bound", GREATEST_BOUND)?;
    evidence_at(alloc, names, machines, bound, lines)
}

/// Reads the lines of a text, which are those of one certificate and no more.
fn certificate_at(
    alloc: Global,
    names: &Names,
    machines: u32,
    bytes: &[u8],
    line: u32,
) -> Result<Certificate, FileFault>
    requires names { length names.now < PLACES }
    requires bytes { length bytes.now ≤ MOST_BYTES }
    requires line { line ≤ LAST_LINE }
    ensures { Gives said_of result (certificate_at names.now machines line bytes.now) }
{
    let mut lines = Lines {
        at: line,
        rest: bytes,
    };
    let certificate = certified_at(alloc, names, machines, &mut lines)?;
    if !lines.rest.is_empty() {
        return Err(FileFault::After { at: lines.at });
    }
    Ok(certificate)
}

/// Reads a certificate text for an instance with these names of jobs and so many machines.
#[tactic(auto, using(crate::proofs::TextLaws::certificate_rules))]
fn read_for(
    alloc: Global,
    names: &Names,
    machines: u32,
    bytes: &[u8],
    line: u32,
) -> Result<Certificate, FileFault>
    requires bytes { length bytes.now ≤ MOST_BYTES }
    requires line { line ≤ LAST_LINE }
    ensures fault { IfErr result (λ e. IsCertificateFaultOf names.now machines line bytes.now e) }
    ensures text { IfOk result (λ c. IsCertificateText bytes.now names.now machines c) }
    ensures again { (c : CertificateValue) → IsCertificateText bytes.now names.now machines c → Gives (λ f. f) result (Ok c) }
    ensures certificate_faults { IfErr result (λ e. IsCertificateFault e) }
{
    // More names than a job's number can tell are more than memory holds.
    if names.len() > u32::MAX as usize {
        return Err(FileFault::Memory);
    }
    certificate_at(alloc, names, machines, bytes, line)
}

/// Reads a certificate text for an instance with these names of jobs, the first line of which has the number `line`. The fault is the
/// first one.
pub fn read_certificate(
    alloc: Global,
    names: &Names,
    inst: &Instance,
    bytes: &[u8],
    line: u32,
) -> Result<Certificate, FileFault>
    requires named { length names.now ≡ length inst.now.jobs }
    requires bytes { length bytes.now ≤ MOST_BYTES }
    requires line { (1 ≤ line) × (line ≤ LAST_LINE) }
    ensures fault { IfErr result (λ e. IsCertificateFaultOf names.now inst.now.machines line bytes.now e) }
    // What is read is a text of the certificate.
    ensures text { IfOk result (λ c. IsCertificateText bytes.now names.now inst.now.machines c) }
    // A text of a certificate is read as that certificate, unless memory runs out.
    ensures again { (c : CertificateValue) → IsCertificateText bytes.now names.now inst.now.machines c → Gives (λ f. f) result (Ok c) }
    // A certificate text has only these faults.
    ensures certificate_faults { IfErr result (λ e. IsCertificateFault e) }
{
    read_for(alloc, names, inst.machines, bytes, line)
}

/// The printed text of a certificate is read as that certificate.
pub fn printed_certificates_are_read()
    ensures { CertificatesReadAgain }
{}
