// The lines of a certificate after the one with its kind.
ghost use Rattle.std.specs.Prelude.{◌<◌, length};
ghost use Rattle.msp_class.specs.declared.list.TheConstants.{PLACES};
ghost use Rattle.msp_cert_text.specs.Reading.{machine_line_at, job_line_of, tail_at, group_proof, machine_proof, line_proof, levels_proof, segments_proof, block_proof, prices_proof, proof_at};
ghost use Rattle.msp_grammar.specs.lines.Steps.{Moves, place_of};

use crate::columns::{Counts, columns_at, fill, product};
use crate::kinds::{GREATEST_LEVEL, Kind};
use crate::listed::{heads_at, levels_at, rows_at};
use crate::segments::{jobs_at, segments_at};
use msp_cert::Proof;
use msp_grammar::{
    FileFault, Lines, What, field_line_at, known_at, natural_at, ordinal_at, word_line_at,
};
use msp_text::Names;
use std::alloc::Global;

#[tactic(auto, unfolding(crate::specs::Reading::machine_line_at))]
fn machine_line_at(machines: u32, lines: &mut Lines<'_>) -> Result<u32, FileFault>
    ensures { Moves (λ m. m) result (place_of lines.new) (machine_line_at machines (place_of lines.old)) }
{
    let at = lines.at;
    let field = field_line_at(lines, b"machine")?;
    ordinal_at(at, What::Machines, machines, field)
}

#[tactic(auto, unfolding(crate::specs::Reading::job_line_of))]
fn job_line_of(names: &Names, lines: &mut Lines<'_>) -> Result<u32, FileFault>
    requires { length names.now < PLACES }
    ensures { Moves (λ j. j) result (place_of lines.new) (job_line_of names.now (place_of lines.old)) }
{
    let at = lines.at;
    let field = field_line_at(lines, b"job")?;
    known_at(at, names, field)
}

#[tactic(auto, unfolding(crate::specs::Reading::tail_at))]
fn tail_at(lines: &mut Lines<'_>) -> Result<u32, FileFault>
    ensures { Moves (λ t. t) result (place_of lines.new) (tail_at (place_of lines.old)) }
{
    let at = lines.at;
    let field = field_line_at(lines, b"tail")?;
    let tail = natural_at(at, What::Level, 0, GREATEST_LEVEL as u64, field)?;
    Ok(tail as u32)
}

/// Some jobs.
#[tactic(auto, unfolding(crate::specs::Reading::group_proof))]
fn group_at(alloc: Global, names: &Names, lines: &mut Lines<'_>) -> Result<Proof, FileFault>
    requires { length names.now < PLACES }
    ensures { Moves (λ p. p) result (place_of lines.new) (group_proof names.now (place_of lines.old)) }
{
    let jobs = jobs_at(alloc, names, 0, lines)?;
    Ok(Proof::Group { jobs })
}

/// A machine.
#[tactic(auto, unfolding(crate::specs::Reading::machine_proof))]
fn machine_at(machines: u32, lines: &mut Lines<'_>) -> Result<Proof, FileFault>
    ensures { Moves (λ p. p) result (place_of lines.new) (machine_proof machines (place_of lines.old)) }
{
    let machine = machine_line_at(machines, lines)?;
    word_line_at(lines, b"end")?;
    Ok(Proof::Machine { machine })
}

/// A job.
#[tactic(auto, unfolding(crate::specs::Reading::line_proof))]
fn one_job_at(names: &Names, lines: &mut Lines<'_>) -> Result<Proof, FileFault>
    requires { length names.now < PLACES }
    ensures { Moves (λ p. p) result (place_of lines.new) (line_proof names.now (place_of lines.old)) }
{
    let job = job_line_of(names, lines)?;
    word_line_at(lines, b"end")?;
    Ok(Proof::Line { job })
}

/// A level for each job.
#[tactic(auto, unfolding(crate::specs::Reading::levels_proof))]
fn steps_at(alloc: Global, names: &Names, lines: &mut Lines<'_>) -> Result<Proof, FileFault>
    ensures { Moves (λ p. p) result (place_of lines.new) (levels_proof names.now (place_of lines.old)) }
{
    let tail = tail_at(lines)?;
    let level = levels_at(alloc, names, lines)?;
    word_line_at(lines, b"end")?;
    Ok(Proof::Levels { level, tail })
}

/// Lists of jobs.
#[tactic(auto, unfolding(crate::specs::Reading::segments_proof))]
fn lists_at(alloc: Global, names: &Names, lines: &mut Lines<'_>) -> Result<Proof, FileFault>
    requires { length names.now < PLACES }
    ensures { Moves (λ p. p) result (place_of lines.new) (segments_proof names.now (place_of lines.old)) }
{
    let lists = segments_at(alloc, names, lines)?;
    Ok(Proof::Segments { lists })
}

/// A head for each job, and some jobs.
#[tactic(auto, unfolding(crate::specs::Reading::block_proof))]
fn block_at(alloc: Global, names: &Names, lines: &mut Lines<'_>) -> Result<Proof, FileFault>
    requires { length names.now < PLACES }
    ensures { Moves (λ p. p) result (place_of lines.new) (block_proof names.now (place_of lines.old)) }
{
    let head = heads_at(alloc, names, lines)?;
    let jobs = jobs_at(alloc, names, head.len(), lines)?;
    Ok(Proof::Block { head, jobs })
}

/// A price for each job, and for each position on each machine.
#[tactic(auto, unfolding(crate::specs::Reading::prices_proof))]
fn prices_at(
    alloc: Global,
    names: &Names,
    machines: u32,
    lines: &mut Lines<'_>,
) -> Result<Proof, FileFault>
    requires { length names.now < PLACES }
    ensures { Moves (λ p. p) result (place_of lines.new) (prices_proof names.now machines (place_of lines.old)) }
{
    let row = rows_at(alloc, names, lines)?;
    let counts = Counts {
        jobs: names.len() as u32,
        machines,
    };
    let mut column = columns_at(alloc, counts, row.len(), lines)?;
    fill(&mut column, product(machines, counts.jobs))?;
    Ok(Proof::Prices { row, column })
}

/// Reads the lines after the one with the kind.
pub(crate) fn proof_at(
    alloc: Global,
    names: &Names,
    machines: u32,
    kind: Kind,
    lines: &mut Lines<'_>,
) -> Result<Proof, FileFault>
    requires { length names.now < PLACES }
    ensures { Moves (λ p. p) result (place_of lines.new) (proof_at names.now machines kind (place_of lines.old)) }
{
    match kind {
        Kind::Group => group_at(alloc, names, lines),
        Kind::Machine => machine_at(machines, lines),
        Kind::Line => one_job_at(names, lines),
        Kind::Levels => steps_at(alloc, names, lines),
        Kind::Segments => lists_at(alloc, names, lines),
        Kind::Block => block_at(alloc, names, lines),
        Kind::Prices => prices_at(alloc, names, machines, lines),
    }
}
