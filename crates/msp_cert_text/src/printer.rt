// The printer of certificate texts.
ghost use Rattle.std.specs.Prelude.{◌≡◌, ◌<◌, ◌++◌, ◌∷◌, [], ℕ, not, length, codes, decimal, pos, OnOk, IfOk};
ghost use Rattle.std.specs.Fmt.{signed_decimal};
ghost use Rattle.std.specs.Ordering.{int_eq};
ghost use Rattle.msp_pieces.specs.Fraction.{IsLowest};
ghost use Rattle.msp_grammar.specs.ScheduleText.{name_at, fraction_text};
ghost use Rattle.msp_grammar.specs.InstanceText.{where_wanted, line_text};
ghost use Rattle.msp_grammar.specs.lines.Steps.{slice_limit};
ghost use Rattle.msp_cert_text.specs.CertificateText.{job_line, job_lines, numbered_lines, segment_lines, column_line, column_lines, kind_lines, lines_text, certificate_text};
ghost use Rattle.msp_cert_text.specs.CertificateText.{printed_certificate, IsStatedProof, IsStatedCertificate, IsCertificateText};

use crate::kinds::kind_word;
use itoa::Buffer;
use msp_cert::{Certificate, Proof};
use msp_class::{List, NoMemory};
use msp_grammar::{put_fraction, put_name};
use msp_instance::Instance;
use msp_text::{Names, Part, put, put_all};
use std::alloc::Global;

/// Puts a line of two fields.
#[tactic(auto, using(crate::proofs::CertificatePrinting::two_line))]
fn put_two<'a>(out: &mut Vec<u8>, word: &'a [u8], field: &'a [u8]) -> Result<(), NoMemory>
    ensures { OnOk result (out.new.items ≡ out.old.items ++ line_text (word.now ∷ field.now ∷ [])) }
{
    let parts = [
        Part::Text(word),
        Part::Text(b" "),
        Part::Text(field),
        Part::Text(b"\n"),
    ];
    put_all(out, &parts)
}

/// Puts the line of a job's name and its number.
#[tactic(auto, using(crate::proofs::CertificatePrinting::three_line))]
fn put_three<'a>(
    out: &mut Vec<u8>,
    word: &'a [u8],
    name: &'a [u8],
    field: &'a [u8],
) -> Result<(), NoMemory>
    ensures { OnOk result (out.new.items ≡ out.old.items ++ line_text (word.now ∷ name.now ∷ field.now ∷ [])) }
{
    let parts = [
        Part::Text(word),
        Part::Text(b" "),
        Part::Text(name),
        Part::Text(b" "),
        Part::Text(field),
        Part::Text(b"\n"),
    ];
    put_all(out, &parts)
}

/// Puts the line of a word and a number.
fn put_number_line(out: &mut Vec<u8>, word: &[u8], number: u64) -> Result<(), NoMemory>
    ensures { OnOk result (out.new.items ≡ out.old.items ++ line_text (word.now ∷ decimal number ∷ [])) }
{
    let mut buffer = Buffer::new();
    put_two(out, word, buffer.format(number).as_bytes())
}

/// Puts the line of a job.
#[tactic(auto, using(crate::proofs::CertificatePrinting::two_line))]
fn put_job(out: &mut Vec<u8>, names: &Names, job: u32) -> Result<(), NoMemory>
    ensures { OnOk result (out.new.items ≡ out.old.items ++ line_text (job_line names.now job)) }
{
    put(out, b"job ")?;
    put_name(out, names, job)?;
    put(out, b"\n")
}

fn put_jobs(out: &mut Vec<u8>, names: &Names, jobs: &[u32]) -> Result<(), NoMemory>
    ensures { OnOk result (out.new.items ≡ out.old.items ++ lines_text (job_lines names.now jobs.now)) }
{
    for job in jobs {
        put_job(out, names, *job)?;
    }
    Ok(())
}

/// Puts the line of the job at a place.
fn put_named(
    out: &mut Vec<u8>,
    word: &[u8],
    names: &Names,
    at: usize,
    field: &[u8],
) -> Result<(), NoMemory>
    requires { at < length names.now }
    ensures { OnOk result (out.new.items ≡ out.old.items ++ line_text (word.now ∷ name_at names.now at ∷ field.now ∷ [])) }
{
    match names.get(at) {
        Some(name) => put_three(out, word, name.bytes(), field),
        None => unreachable!(),
    }
}

/// Puts the line of the number of the job at a place.
fn put_numbered(
    out: &mut Vec<u8>,
    word: &[u8],
    names: &Names,
    at: usize,
    number: u64,
) -> Result<(), NoMemory>
    requires { at < length names.now }
    ensures { OnOk result (out.new.items ≡ out.old.items ++ line_text (word.now ∷ name_at names.now at ∷ decimal number ∷ [])) }
{
    let mut buffer = Buffer::new();
    put_named(out, word, names, at, buffer.format(number).as_bytes())
}

fn put_levels(out: &mut Vec<u8>, names: &Names, levels: &[u32]) -> Result<(), NoMemory>
    requires { length levels.now ≡ length names.now }
    ensures { OnOk result (out.new.items ≡ out.old.items ++ lines_text (numbered_lines (codes "level") decimal names.now levels.now)) }
{
    'jobs: for (at, level) in levels.iter().enumerate() {
        put_numbered(out, b"level", names, at, *level as u64)?;
    }
    Ok(())
}

fn put_heads(out: &mut Vec<u8>, names: &Names, heads: &[u64]) -> Result<(), NoMemory>
    requires { length heads.now ≡ length names.now }
    ensures { OnOk result (out.new.items ≡ out.old.items ++ lines_text (numbered_lines (codes "head") decimal names.now heads.now)) }
{
    'jobs: for (at, head) in heads.iter().enumerate() {
        put_numbered(out, b"head", names, at, *head)?;
    }
    Ok(())
}

fn put_price(out: &mut Vec<u8>, names: &Names, at: usize, price: &i128) -> Result<(), NoMemory>
    requires { at < length names.now }
    ensures { OnOk result (out.new.items ≡ out.old.items ++ line_text (codes "row" ∷ name_at names.now at ∷ signed_decimal price.now ∷ [])) }
{
    let number = *price;
    let mut buffer = Buffer::new();
    put_named(out, b"row", names, at, buffer.format(number).as_bytes())
}

fn put_rows(out: &mut Vec<u8>, names: &Names, row: &[i128]) -> Result<(), NoMemory>
    requires { length row.now ≡ length names.now }
    ensures { OnOk result (out.new.items ≡ out.old.items ++ lines_text (numbered_lines (codes "row") signed_decimal names.now row.now)) }
{
    'jobs: for (at, price) in row.iter().enumerate() {
        put_price(out, names, at, price)?;
    }
    Ok(())
}

/// Puts the lines of a list of jobs.
fn put_list(out: &mut Vec<u8>, names: &Names, jobs: &List<u32>) -> Result<(), NoMemory>
    ensures { OnOk result (out.new.items ≡ out.old.items ++ lines_text ((codes "segment" ∷ []) ∷ job_lines names.now jobs.now)) }
{
    put(out, b"segment\n")?;
    put_jobs(out, names, jobs.as_slice())
}

fn put_lists(out: &mut Vec<u8>, names: &Names, lists: &[List<u32>]) -> Result<(), NoMemory>
    ensures { OnOk result (out.new.items ≡ out.old.items ++ lines_text (segment_lines names.now lists.now)) }
{
    for jobs in lists {
        put_list(out, names, jobs)?;
    }
    Ok(())
}

/// Puts the line of the price of a position: its machine and its place there, both from 1, and the price.
#[tactic(auto, using(crate::proofs::CertificatePrinting::four_line))]
fn put_column_line(out: &mut Vec<u8>, jobs: u64, at: u64, price: i128) -> Result<(), NoMemory>
    requires some { 0 < jobs }
    requires small { at < slice_limit }
    ensures { OnOk result (out.new.items ≡ out.old.items ++ line_text (column_line jobs at price)) }
{
    let parts = [
        Part::Text(b"column "),
        Part::Number(at / jobs + 1),
        Part::Text(b" "),
        Part::Number(at % jobs + 1),
        Part::Text(b" "),
        Part::Integer(price),
        Part::Text(b"\n"),
    ];
    put_all(out, &parts)
}

/// Puts the price of a position, unless it is 0.
fn put_column(out: &mut Vec<u8>, jobs: u64, at: u64, price: &i128) -> Result<(), NoMemory>
    requires some { 0 < jobs }
    requires small { at < slice_limit }
    ensures { OnOk result (out.new.items ≡ out.old.items ++ lines_text (where_wanted (not (int_eq price.now (pos 0))) (column_line jobs at price.now ∷ []))) }
{
    let number = *price;
    if number == 0 {
        return Ok(());
    }
    put_column_line(out, jobs, at, number)
}

fn put_columns(out: &mut Vec<u8>, jobs: u64, column: &[i128]) -> Result<(), NoMemory>
    requires { 0 < length column.now → 0 < jobs }
    ensures { OnOk result (out.new.items ≡ out.old.items ++ lines_text (column_lines jobs 0 column.now)) }
{
    'positions: for (at, price) in column.iter().enumerate() {
        put_column(out, jobs, at as u64, price)?;
    }
    Ok(())
}

fn put_steps(out: &mut Vec<u8>, names: &Names, levels: &[u32], tail: u32) -> Result<(), NoMemory>
    requires { length levels.now ≡ length names.now }
    ensures { OnOk result (out.new.items ≡ out.old.items ++ lines_text ((codes "tail" ∷ decimal tail ∷ []) ∷ numbered_lines (codes "level") decimal names.now levels.now)) }
{
    put_number_line(out, b"tail", tail as u64)?;
    put_levels(out, names, levels)
}

#[tactic(auto, using(crate::proofs::CertificatePrinting::append_rules))]
fn put_block(out: &mut Vec<u8>, names: &Names, heads: &[u64], jobs: &[u32]) -> Result<(), NoMemory>
    requires { length heads.now ≡ length names.now }
    ensures { OnOk result (out.new.items ≡ out.old.items ++ lines_text (numbered_lines (codes "head") decimal names.now heads.now ++ job_lines names.now jobs.now)) }
{
    put_heads(out, names, heads)?;
    put_jobs(out, names, jobs)
}

#[tactic(auto, using(crate::proofs::CertificatePrinting::append_rules))]
fn put_prices(
    out: &mut Vec<u8>,
    names: &Names,
    row: &[i128],
    column: &[i128],
) -> Result<(), NoMemory>
    requires row { length row.now ≡ length names.now }
    requires column { 0 < length column.now → 0 < length names.now }
    ensures { OnOk result (out.new.items ≡ out.old.items ++ lines_text (numbered_lines (codes "row") signed_decimal names.now row.now ++ column_lines (length names.now) 0 column.now)) }
{
    put_rows(out, names, row)?;
    put_columns(out, names.len() as u64, column)
}

/// Puts the lines of a proof.
fn put_proof(out: &mut Vec<u8>, names: &Names, proof: &Proof) -> Result<(), NoMemory>
    requires { (machines : ℕ) × IsStatedProof names.now machines proof.now }
    ensures { OnOk result (out.new.items ≡ out.old.items ++ lines_text (kind_lines names.now proof.now)) }
{
    match proof {
        Proof::Group { jobs } => put_jobs(out, names, jobs.as_slice()),
        Proof::Machine { machine } => put_number_line(out, b"machine", *machine as u64 + 1),
        Proof::Line { job } => put_job(out, names, *job),
        Proof::Levels { level, tail } => put_steps(out, names, level.as_slice(), *tail),
        Proof::Segments { lists } => put_lists(out, names, lists.as_slice()),
        Proof::Block { head, jobs } => put_block(out, names, head.as_slice(), jobs.as_slice()),
        Proof::Prices { row, column } => put_prices(out, names, row.as_slice(), column.as_slice()),
    }
}

/// Puts the line of the bound.
#[tactic(auto, using(crate::proofs::CertificatePrinting::two_line))]
fn put_bound(out: &mut Vec<u8>, certificate: &Certificate) -> Result<(), NoMemory>
    ensures { OnOk result (out.new.items ≡ out.old.items ++ line_text (codes "bound" ∷ fraction_text certificate.now.bound ∷ [])) }
{
    put(out, b"bound ")?;
    put_fraction(out, certificate.bound)?;
    put(out, b"\n")
}

/// Puts the text of a certificate.
#[tactic(auto, unfolding(crate::specs::CertificateText::certificate_text))]
fn put_certificate(
    out: &mut Vec<u8>,
    names: &Names,
    inst: &Instance,
    certificate: &Certificate,
) -> Result<(), NoMemory>
    requires { IsStatedCertificate names.now inst.now.machines certificate.now }
    ensures { OnOk result (out.new.items ≡ out.old.items ++ printed_certificate names.now certificate.now) }
{
    put(out, b"certificate\n")?;
    put_bound(out, certificate)?;
    put_two(out, b"kind", kind_word(&certificate.proof))?;
    put_proof(out, names, &certificate.proof)?;
    put(out, b"end\n")
}

/// The text of a certificate.
#[tactic(auto, using(crate::proofs::CertificatePrinting::printed))]
pub fn print_certificate(
    alloc: Global,
    names: &Names,
    inst: &Instance,
    cert: &Certificate,
) -> Result<Vec<u8>, NoMemory>
    requires named { length names.now ≡ length inst.now.jobs }
    requires stated { IsStatedCertificate names.now inst.now.machines cert.now }
    requires lowest { IsLowest cert.now.bound }
    ensures text { IfOk result (λ text. text.items ≡ printed_certificate names.now cert.now) }
    // It is a text of the certificate.
    ensures again { IfOk result (λ text. IsCertificateText text.items names.now inst.now.machines cert.now) }
{
    let mut out = Vec::new(alloc);
    put_certificate(&mut out, names, inst, cert)?;
    Ok(out)
}
