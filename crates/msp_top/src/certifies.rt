// The answer to `certify`.
ghost use Rattle.std.specs.Prelude.{◌≡◌, ◌≤◌, length};
ghost use Rattle.msp_instance.specs.Conditions.{InClass};
ghost use Rattle.msp_top.specs.Certifies.{CertifyIsRight};
ghost use Rattle.msp_top.specs.Answers.{Answers, OfFiled};

use crate::answers::{INPUT_LIMIT, Report};
use crate::refusal::Refusal;
use crate::statuses::WRITTEN;
use msp_dispatch::certify_any;
use msp_file::read_instance;
use msp_grammar::Filed;
use msp_report::certify_text;
use std::alloc::Global;

/// The answer to the text of an instance: a certificate of its best cost.
pub fn certify_answer(alloc: Global, input: &[u8]) -> Result<Report, Refusal>
    requires { length input.now ≤ INPUT_LIMIT }
    ensures { Answers (CertifyIsRight input.now) result }
{
    let filed = read_instance(alloc, input)?;
    certify_filed(alloc, &filed)
}

/// The answer for an instance.
fn certify_filed(alloc: Global, filed: &Filed) -> Result<Report, Refusal>
    requires class { InClass filed.now.instance }
    requires named { length filed.now.names ≡ length filed.now.instance.jobs }
    ensures { Answers (OfFiled CertifyIsRight filed.now) result }
{
    let certified = certify_any(alloc, &filed.instance)?;
    let text = certify_text(alloc, &filed.names, &filed.instance, &certified)?;
    Ok(Report {
        status: WRITTEN,
        text,
    })
}
