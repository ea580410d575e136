// The answer to `solve`.
ghost use Rattle.std.specs.Prelude.{◌≡◌, ◌≤◌, length};
ghost use Rattle.msp_instance.specs.Conditions.{InClass};
ghost use Rattle.msp_top.specs.Solves.{SolveIsRight};
ghost use Rattle.msp_top.specs.Answers.{Answers, OfFiled};

use crate::answers::{INPUT_LIMIT, Report};
use crate::refusal::Refusal;
use crate::statuses::WRITTEN;
use msp_class::Class;
use msp_dispatch::solve_any;
use msp_file::read_instance;
use msp_grammar::Filed;
use msp_report::solve_text;
use std::alloc::Global;

/// The answer to the text of an instance, at the class that is named, if one is named.
pub fn solve_answer(alloc: Global, at: Option<Class>, input: &[u8]) -> Result<Report, Refusal>
    requires { length input.now ≤ INPUT_LIMIT }
    ensures { Answers (SolveIsRight input.now at) result }
{
    let filed = read_instance(alloc, input)?;
    answer_filed(alloc, at, &filed)
}

/// The answer for an instance.
fn answer_filed(alloc: Global, at: Option<Class>, filed: &Filed) -> Result<Report, Refusal>
    requires class { InClass filed.now.instance }
    requires named { length filed.now.names ≡ length filed.now.instance.jobs }
    ensures { Answers (OfFiled (λ input. SolveIsRight input at) filed.now) result }
{
    let answer = solve_any(alloc, &filed.instance, at)?;
    let text = solve_text(alloc, &filed.names, &answer)?;
    Ok(Report {
        status: WRITTEN,
        text,
    })
}
