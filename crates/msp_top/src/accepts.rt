// The answer to `accept`.
ghost use Rattle.std.specs.Prelude.{◌≡◌, ◌≤◌, length, IfOk, if◌then◌else◌};
ghost use Rattle.msp_instance.specs.Conditions.{InClass};
ghost use Rattle.msp_pieces.specs.Fraction.{IsComparable};
ghost use Rattle.msp_cert.specs.Certificates.{KeepsLimits};
ghost use Rattle.msp_cert_text.specs.CertificateText.{IsStatedBound};
ghost use Rattle.msp_grammar.specs.declared.lines.limits.TheConstants.{LAST_LINE};
ghost use Rattle.msp_top.specs.Accepts.{IsAcceptReport, AcceptIsRight};
ghost use Rattle.msp_top.specs.Answers.{Answers, OfRest};

use crate::answers::{CHECK_LIMIT, Report};
use crate::refusal::Refusal;
use crate::statuses::{NO, WRITTEN};
use msp_cert::{Certificate, accept};
use msp_cert_text::read_certificate;
use msp_class::NoMemory;
use msp_file::read_front;
use msp_grammar::Filed;
use msp_instance::Instance;
use msp_report::accept_text;
use std::alloc::Global;

/// The answer to a text of an instance with that of a certificate after it.
pub fn accept_answer(alloc: Global, input: &[u8]) -> Result<Report, Refusal>
    requires { length input.now ≤ CHECK_LIMIT }
    ensures { Answers (AcceptIsRight input.now) result }
{
    let front = read_front(alloc, input)?;
    accept_rest(alloc, &front.filed, front.line, &input[front.used..])
}

/// The answer to the rest of an input, after the text of the instance.
#[tactic(auto, using(msp_cert_text::proofs::CertificateLimits::limit_rules))]
fn accept_rest(alloc: Global, filed: &Filed, line: u32, rest: &[u8]) -> Result<Report, Refusal>
    requires class { InClass filed.now.instance }
    requires named { length filed.now.names ≡ length filed.now.instance.jobs }
    requires rest { length rest.now ≤ CHECK_LIMIT }
    requires line { (1 ≤ line) × (line ≤ LAST_LINE) }
    ensures { Answers (OfRest AcceptIsRight filed.now line rest.now) result }
{
    let certificate = read_certificate(alloc, &filed.names, &filed.instance, rest, line)?;
    Ok(report_on(alloc, &filed.instance, &certificate)?)
}

/// The status of a certificate that is accepted, or not.
fn status_of(accepted: bool) -> u8
    ensures { result ≡ (if accepted then 0 else 1) }
{
    if accepted { WRITTEN } else { NO }
}

/// The report on a certificate: whether it is accepted.
fn report_on(alloc: Global, inst: &Instance, certificate: &Certificate) -> Result<Report, NoMemory>
    requires class { InClass inst.now }
    requires stated { IsStatedBound certificate.now.bound }
    requires bound { IsComparable certificate.now.bound }
    requires limits { KeepsLimits certificate.now.proof }
    ensures { IfOk result (λ made. IsAcceptReport inst.now certificate.now made.status made.text.items) }
{
    let accepted = accept(alloc, inst, certificate)?;
    let text = accept_text(alloc, inst, certificate, accepted)?;
    Ok(Report {
        status: status_of(accepted),
        text,
    })
}
