// The answer to a trial.
ghost use Rattle.std.specs.Prelude.{◌≡◌, IfOk};
ghost use Rattle.msp_instance.specs.Conditions.{InClass};
ghost use Rattle.msp_top.specs.Trials.{instance_of, TrialIsRight};
ghost use Rattle.msp_top.specs.Answers.{Answers, IsInRange};

use crate::answers::Report;
use crate::command::Trial;
use crate::refusal::Refusal;
use crate::statuses::WRITTEN;
use msp_class::NoMemory;
use msp_dispatch::solve_any;
use msp_gen::{GenFault, generate};
use msp_instance::Instance;
use msp_report::trial_text;
use std::alloc::Global;

/// The instance of a trial.
fn instance(alloc: Global, trial: &Trial) -> Result<Instance, NoMemory>
    requires { IsInRange trial.now }
    ensures made { IfOk result (λ inst. inst ≡ instance_of trial.now) }
    ensures class { IfOk result (λ inst. InClass inst) }
{
    match generate(alloc, trial.class, trial.jobs, trial.seed) {
        Ok(inst) => Ok(inst),
        Err(GenFault::Memory) => Err(NoMemory),
        Err(GenFault::Jobs) => unreachable!(),
    }
}

/// The answer to a trial: its instance is made and solved.
pub fn trial_answer(alloc: Global, trial: &Trial) -> Result<Report, Refusal>
    requires { IsInRange trial.now }
    ensures { Answers (TrialIsRight trial.now) result }
{
    let inst = instance(alloc, trial)?;
    answer_made(alloc, trial, &inst)
}

/// The answer for the instance of a trial.
fn answer_made(alloc: Global, trial: &Trial, inst: &Instance) -> Result<Report, Refusal>
    requires made { inst.now ≡ instance_of trial.now }
    requires class { InClass inst.now }
    ensures { Answers (TrialIsRight trial.now) result }
{
    let answer = solve_any(alloc, inst, None)?;
    let text = trial_text(alloc, inst, trial.seed, &answer)?;
    Ok(Report {
        status: WRITTEN,
        text,
    })
}
