// The report of `trial`.
ghost use Rattle.std.specs.Prelude.{◌≡◌, ◌++◌, OnOk, IfOk};
ghost use Rattle.msp_report.specs.TrialText.{made_lines, solved_lines, trial_report};

use crate::lines::{put_class_line, put_cost_line, put_number_line};
use crate::solve::put_solver;
use msp_class::NoMemory;
use msp_instance::Instance;
use msp_route::Answer;
use msp_text::put;
use std::alloc::Global;

/// Puts what was made: an instance of a class, with so many jobs, from a seed.
#[tactic(auto, unfolding(crate::specs::TrialText::made_lines))]
fn put_made(out: &mut Vec<u8>, inst: &Instance, seed: u32) -> Result<(), NoMemory>
    ensures { OnOk result (out.new.items ≡ out.old.items ++ made_lines inst.now seed) }
{
    put_class_line(out, inst.class)?;
    put_number_line(out, b"jobs ", inst.jobs.len() as u64)?;
    put_number_line(out, b"seed ", u64::from(seed))
}

/// Puts how it was solved.
#[tactic(auto, unfolding(crate::specs::TrialText::solved_lines))]
fn put_solved(out: &mut Vec<u8>, answer: &Answer) -> Result<(), NoMemory>
    ensures { OnOk result (out.new.items ≡ out.old.items ++ solved_lines answer.now) }
{
    put_solver(out, answer.solver)?;
    put_number_line(out, b"rows ", answer.chain.rows.len() as u64)?;
    let pieces = answer.solution.schedule.pieces.len() as u64;
    put_number_line(out, b"pieces ", pieces)
}

/// The report of `trial`: how an instance that was made from a seed was solved, and its cost.
#[tactic(auto, unfolding(crate::specs::TrialText::trial_report))]
pub fn trial_text(
    alloc: Global,
    inst: &Instance,
    seed: u32,
    answer: &Answer,
) -> Result<Vec<u8>, NoMemory>
    ensures { IfOk result (λ text. text.items ≡ trial_report inst.now seed answer.now) }
{
    let mut text = Vec::new(alloc);
    put_made(&mut text, inst, seed)?;
    put_solved(&mut text, answer)?;
    put_cost_line(&mut text, answer.solution.cost)?;
    put(&mut text, b"end\n")?;
    Ok(text)
}
