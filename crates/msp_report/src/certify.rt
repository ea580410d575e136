// The reports of `certify` and `accept`.
ghost use Rattle.std.specs.Prelude.{◌≡◌, ◌++◌, OnOk, IfOk, length};
ghost use Rattle.msp_pieces.specs.Fraction.{IsLowest};
ghost use Rattle.msp_cert_text.specs.CertificateText.{IsStatedBound, IsStatedCertificate};
ghost use Rattle.msp_report.specs.CertifyText.{certify_report, accept_lines, IsAcceptText};

use crate::check::put_yes_or_no;
use crate::lines::{put_class_line, put_cost_line};
use msp_cert::{Certificate, Certified};
use msp_cert_text::{kind_word, print_certificate};
use msp_class::NoMemory;
use msp_grammar::put_fraction;
use msp_instance::Instance;
use msp_pieces::{Frac, lowest};
use msp_text::{Names, put};
use std::alloc::Global;

/// The report of `certify`: the class, the cost and its certificate.
#[tactic(auto, unfolding(crate::specs::CertifyText::certify_report))]
pub fn certify_text(
    alloc: Global,
    names: &Names,
    inst: &Instance,
    certified: &Certified,
) -> Result<Vec<u8>, NoMemory>
    requires named { length names.now ≡ length inst.now.jobs }
    requires stated { IsStatedCertificate names.now inst.now.machines certified.now.certificate }
    requires bound { IsLowest certified.now.certificate.bound }
    requires class { certified.now.class ≡ inst.now.class }
    requires cost { IsLowest certified.now.solution.cost }
    ensures { IfOk result (λ text. text.items ≡ certify_report names.now certified.now) }
{
    let certificate = print_certificate(alloc, names, inst, &certified.certificate)?;
    let mut text = Vec::new(alloc);
    put_class_line(&mut text, certified.class)?;
    put_cost_line(&mut text, certified.solution.cost)?;
    put(&mut text, &certificate)?;
    Ok(text)
}

#[tactic(auto, unfolding(crate::specs::CertifyText::accept_lines))]
fn put_accept_lines(
    out: &mut Vec<u8>,
    inst: &Instance,
    word: &[u8],
    bound: Frac,
    yes: bool,
) -> Result<(), NoMemory>
    ensures { OnOk result (out.new.items ≡ out.old.items ++ accept_lines inst.now word.now bound yes) }
{
    put_class_line(out, inst.class)?;
    put(out, b"kind ")?;
    put(out, word)?;
    put(out, b"\nbound ")?;
    put_fraction(out, bound)?;
    put(out, b"\naccepted ")?;
    put_yes_or_no(out, yes)?;
    put(out, b"\nend\n")
}

/// The report of `accept` for a certificate of an instance, which is accepted or not.
pub fn accept_text(
    alloc: Global,
    inst: &Instance,
    cert: &Certificate,
    yes: bool,
) -> Result<Vec<u8>, NoMemory>
    requires { IsStatedBound cert.now.bound }
    ensures { IfOk result (λ text. IsAcceptText inst.now cert.now yes text.items) }
{
    let bound = lowest(cert.bound);
    let mut text = Vec::new(alloc);
    put_accept_lines(&mut text, inst, kind_word(&cert.proof), bound, yes)?;
    Ok(text)
}
