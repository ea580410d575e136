// The answer to `check`.
ghost use Rattle.std.specs.Prelude.{◌≤◌, ◌↔◌, IsTrue, length, IsNone, IfOk};
ghost use Rattle.msp_class.specs.Env.{IsCutOnUnrelated};
ghost use Rattle.msp_instance.specs.Conditions.{InClass};
ghost use Rattle.msp_pieces.specs.Feasible.{Feasible};
ghost use Rattle.msp_grammar.specs.ScheduleText.{IsStated};
ghost use Rattle.msp_grammar.specs.declared.lines.limits.TheConstants.{LAST_LINE};
ghost use Rattle.msp_top.specs.Checks.{HasCheckStatus, IsCheckReport, CheckIsRight};
ghost use Rattle.msp_top.specs.Answers.{Answers, OfRest};

use crate::answers::{CHECK_LIMIT, Report};
use crate::refusal::{Refusal, unchecked};
use crate::statuses::{NO, WRITTEN};
use msp_class::{Class, EnvKind, NoMemory, env_kind};
use msp_file::{read_front, read_schedule};
use msp_grammar::{Filed, Stated};
use msp_report::{check_text, states_its_cost};
use msp_schedule::{Break, swept};
use std::alloc::Global;

/// The answer to a text of an instance with that of a schedule after it.
pub fn check_answer(alloc: Global, input: &[u8]) -> Result<Report, Refusal>
    requires { length input.now ≤ CHECK_LIMIT }
    ensures { Answers (CheckIsRight input.now) result }
{
    let front = read_front(alloc, input)?;
    check_rest(alloc, &front.filed, front.line, &input[front.used..])
}

/// Whether the class is cut and on unrelated machines.
fn is_unchecked(class: Class) -> bool
    ensures { IsTrue result ↔ IsCutOnUnrelated class }
{
    class.cut && env_kind(class.env) == EnvKind::Unrelated
}

/// The answer to the rest of an input, after the text of the instance.
fn check_rest(alloc: Global, filed: &Filed, line: u32, rest: &[u8]) -> Result<Report, Refusal>
    requires class { InClass filed.now.instance }
    requires rest { length rest.now ≤ CHECK_LIMIT }
    requires line { (1 ≤ line) × (line ≤ LAST_LINE) }
    ensures { Answers (OfRest CheckIsRight filed.now line rest.now) result }
{
    if is_unchecked(filed.instance.class) {
        return Err(unchecked(filed.instance.class));
    }
    let stated = read_schedule(alloc, &filed.names, rest, line)?;
    Ok(report_on(alloc, filed, &stated)?)
}

/// The status where the schedule breaks a condition first, or none.
#[tactic(auto, using(crate::proofs::CheckAnswers::check_rules))]
fn status_of(filed: &Filed, stated: &Stated, broken: Option<Break>) -> u8
    requires class { InClass filed.now.instance }
    requires stated { IsStated filed.now.names stated.now.schedule stated.now.cost }
    requires decided { IsNone broken ↔ Feasible filed.now.instance stated.now.schedule }
    ensures { HasCheckStatus filed.now.instance stated.now result }
{
    match broken {
        Some(_) => NO,
        None => {
            if states_its_cost(filed, stated) {
                WRITTEN
            } else {
                NO
            }
        }
    }
}

/// The report on a schedule.
#[tactic(auto, using(crate::proofs::CheckAnswers::check_rules))]
fn report_on(alloc: Global, filed: &Filed, stated: &Stated) -> Result<Report, NoMemory>
    requires class { InClass filed.now.instance }
    requires stated { IsStated filed.now.names stated.now.schedule stated.now.cost }
    requires decided { ¬ IsCutOnUnrelated filed.now.instance.class }
    ensures status { IfOk result (λ made. HasCheckStatus filed.now.instance stated.now made.status) }
    ensures text { IfOk result (λ made. IsCheckReport filed.now stated.now made.text.items) }
{
    let broken = swept(alloc, &filed.instance, &stated.schedule)?;
    let text = check_text(alloc, filed, stated, broken)?;
    Ok(Report {
        status: status_of(filed, stated, broken),
        text,
    })
}
