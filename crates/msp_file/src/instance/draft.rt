// The lines of jobs and arcs.
ghost use Rattle.std.specs.Prelude.{◌≡◌, ◌++◌, ◌∷◌, [], ◌≤◌, ◌<◌, false, not, length, bytes_eq, MatchResult, Ok, OnOk};
ghost use Rattle.std.specs.List.{list_any};
ghost use Rattle.msp_class.specs.declared.sizes.TheConstants.{MOST_JOBS};
ghost use Rattle.msp_grammar.specs.lines.Answers.{Gives};
ghost use Rattle.msp_file.specs.instance.ArcFlags.{is_arc_among};
ghost use Rattle.msp_grammar.specs.lines.Reading.{provided};
ghost use Rattle.msp_file.specs.instance.Reading.{with_arc, arc_line_at, time_in, job_at_line, arc_step, arcs_from, jobs_from};
ghost use Rattle.msp_grammar.specs.lines.Steps.{Moves, AfterLine, place_of, fields_after};
ghost use Rattle.msp_file.specs.instance.Steps.{AfterJob, AfterNext, AfterWords, next_of};

use crate::instance::arcs::Arcs;
use crate::instance::curve::curve_at;
use crate::instance::job::{Keys, job_line_at};
use crate::instance::operations::needs_at;
use msp_class::{Class, List};
use msp_grammar::{
    FileFault, Lines, What, end_line, has_order, has_time_key, known_at, line_at, split_word,
    two_fields,
};
use msp_instance::{Arc, Job, MOST_ARCS, MOST_JOBS};
use msp_text::{JobName, Names};
use std::alloc::Global;

/// The jobs and arcs read so far.
#[derive(Drop)]
pub(crate) struct Draft {
    pub(crate) names: Names,
    pub(crate) jobs: List<Job>,
    pub(crate) arcs: Arcs,
}

/// What the head says to the lines of jobs: the class, the number of machines, and the time that all operations share.
#[derive(Clone, Copy)]
pub(crate) struct Frame {
    pub(crate) class: Class,
    pub(crate) machines: u32,
    pub(crate) time: u64,
}

/// What a line after the head or after a job was.
#[derive(Clone, Copy)]
enum Next {
    Job,
    Arc,
    End,
}

/// Puts a job of a new name at the end.
fn push_job(draft: &mut Draft, name: JobName, job: Job) -> Result<(), FileFault>
    requires { list_any (bytes_eq name) draft.old.names ≡ false }
    ensures { MatchResult result (λ _. draft.new ≡ record draft.old { names = draft.old.names ++ name ∷ []; jobs = draft.old.jobs ++ job ∷ [] }) (λ e. e ≡ FileFault.Memory) }
{
    draft.names.add(name)?;
    draft.jobs.put(job)?;
    Ok(())
}

/// The time of a job's operations that no line writes.
fn time_in(frame: Frame, keys: Keys) -> u64
    ensures { result ≡ time_in frame.class frame.time keys }
{
    if has_time_key(frame.class) {
        keys.time
    } else {
        frame.time
    }
}

/// The job whose line has these fields, with the lines of it that come next, put at the end of the draft.
#[tactic(auto, unfolding(crate::specs::instance::Reading::job_at_line))]
fn job_at_line(
    alloc: Global,
    frame: Frame,
    draft: &mut Draft,
    at: u32,
    fields: &[u8],
    lines: &mut Lines<'_>,
) -> Result<(), FileFault>
    requires even { length draft.old.names ≡ length draft.old.jobs }
    ensures even { OnOk result ((length draft.new.names ≡ length draft.new.jobs) × (length draft.new.names ≤ MOST_JOBS)) }
    ensures shrinks { OnOk result (length lines.new.rest.now ≤ length lines.old.rest.now) }
    ensures moves { Moves (λ _. draft.new) result (place_of lines.new) (job_at_line frame.class frame.machines frame.time draft.old at (fields_after fields.now) (place_of lines.old)) }
{
    if draft.jobs.len() >= MOST_JOBS {
        return Err(FileFault::Limit {
            at,
            what: What::Jobs,
        });
    }
    let (name, keys) = job_line_at(frame.class, at, &draft.names, fields)?;
    let time = time_in(frame, keys);
    let needs = needs_at(alloc, frame.class, frame.machines, time, lines)?;
    let curve = curve_at(alloc, frame.class.crit, lines)?;
    let job = Job {
        release: keys.release,
        due: keys.due,
        weight: keys.weight,
        needs,
        curve,
    };
    push_job(draft, name, job)
}

/// Puts an arc at the end, unless it is among those so far.
fn add_arc(at: u32, draft: &mut Draft, before: u32, after: u32) -> Result<(), FileFault>
    requires before { before < MOST_JOBS }
    requires after { after < MOST_JOBS }
    ensures gives { Gives (λ _. draft.new) result (provided (not (is_arc_among draft.old.arcs before after)) (FileFault.ArcAgain at) (Ok (with_arc draft.old before after))) }
    ensures names { OnOk result (draft.new.names ≡ draft.old.names) }
    ensures jobs { OnOk result (draft.new.jobs ≡ draft.old.jobs) }
{
    if draft.arcs.add(Arc { before, after })? {
        Ok(())
    } else {
        Err(FileFault::ArcAgain { at })
    }
}

/// The arc whose line has these fields, put at the end of the draft.
#[tactic(auto, unfolding(crate::specs::instance::Reading::arc_line_at))]
fn arc_line_at(at: u32, draft: &mut Draft, fields: &[u8]) -> Result<(), FileFault>
    requires { length draft.old.names ≤ MOST_JOBS }
    ensures gives { Gives (λ _. draft.new) result (arc_line_at at draft.old (fields_after fields.now)) }
    ensures names { OnOk result (draft.new.names ≡ draft.old.names) }
    ensures jobs { OnOk result (draft.new.jobs ≡ draft.old.jobs) }
{
    if draft.arcs.len() >= MOST_ARCS {
        return Err(FileFault::Limit {
            at,
            what: What::Arcs,
        });
    }
    let Some((first, second)) = two_fields(fields) else {
        return Err(FileFault::Count { at });
    };
    let before = known_at(at, &draft.names, first)?;
    let after = known_at(at, &draft.names, second)?;
    add_arc(at, draft, before, after)
}

/// Reads an arc, where there may be one, or else the last line. Whether it is an arc.
fn arc_or_end(
    may: bool,
    at: u32,
    draft: &mut Draft,
    word: &[u8],
    fields: &[u8],
) -> Result<bool, FileFault>
    requires { length draft.old.names ≤ MOST_JOBS }
    ensures after { AfterWords may at (word.now ∷ fields_after fields.now) result draft.old draft.new }
    ensures names { OnOk result (draft.new.names ≡ draft.old.names) }
    ensures jobs { OnOk result (draft.new.jobs ≡ draft.old.jobs) }
{
    if may && *word == *b"arc".as_slice() {
        return match arc_line_at(at, draft, fields) {
            Ok(()) => Ok(true),
            Err(fault) => Err(fault),
        };
    }
    match end_line(at, word, fields) {
        Ok(()) => Ok(false),
        Err(fault) => Err(fault),
    }
}

/// Reads a line after an arc, and answers whether it is an arc.
fn arc_step(draft: &mut Draft, lines: &mut Lines<'_>) -> Result<bool, FileFault>
    requires { length draft.old.names ≤ MOST_JOBS }
    ensures after { AfterLine arc_step result draft.old (place_of lines.old) draft.new (place_of lines.new) }
    ensures names { OnOk result (draft.new.names ≡ draft.old.names) }
    ensures jobs { OnOk result (draft.new.jobs ≡ draft.old.jobs) }
    ensures shrinks { OnOk result (length lines.new.rest.now < length lines.old.rest.now) }
{
    let at = lines.at;
    match line_at(lines) {
        Ok(line) => {
            let (word, fields) = split_word(line);
            arc_or_end(true, at, draft, word, fields)
        }
        Err(fault) => Err(fault),
    }
}

/// Reads the lines after an arc, up to the last one.
fn arcs_at(draft: &mut Draft, lines: &mut Lines<'_>) -> Result<(), FileFault>
    requires { length draft.old.names ≤ MOST_JOBS }
    ensures names { OnOk result (draft.new.names ≡ draft.old.names) }
    ensures jobs { OnOk result (draft.new.jobs ≡ draft.old.jobs) }
    ensures moves { Moves (λ _. draft.new) result (place_of lines.new) (arcs_from draft.old (place_of lines.old)) }
{
    'lines: loop {
        match arc_step(draft, lines) {
            Ok(true) => {}
            Ok(false) => return Ok(()),
            Err(fault) => return Err(fault),
        }
    }
}

/// Reads what a line after the head or after a job says, with the lines of the job that it begins.
fn job_or_other(
    alloc: Global,
    frame: Frame,
    draft: &mut Draft,
    at: u32,
    word: &[u8],
    fields: &[u8],
    lines: &mut Lines<'_>,
) -> Result<Next, FileFault>
    requires even { length draft.old.names ≡ length draft.old.jobs }
    requires few { length draft.old.names ≤ MOST_JOBS }
    ensures after { AfterNext (next_of frame.class frame.machines frame.time at draft.old (word.now ∷ fields_after fields.now) (place_of lines.old)) result draft.new (place_of lines.new) }
    ensures few { OnOk result (length draft.new.names ≤ MOST_JOBS) }
    ensures even { OnOk result (length draft.new.names ≡ length draft.new.jobs) }
    ensures shrinks { OnOk result (length lines.new.rest.now ≤ length lines.old.rest.now) }
{
    if *word == *b"job".as_slice() {
        return match job_at_line(alloc, frame, draft, at, fields, lines) {
            Ok(()) => Ok(Next::Job),
            Err(fault) => Err(fault),
        };
    }
    match arc_or_end(has_order(frame.class.order), at, draft, word, fields) {
        Ok(true) => Ok(Next::Arc),
        Ok(false) => Ok(Next::End),
        Err(fault) => Err(fault),
    }
}

/// Reads a line after the head or after a job, with the lines of the job that it begins.
fn job_step(
    alloc: Global,
    frame: Frame,
    draft: &mut Draft,
    lines: &mut Lines<'_>,
) -> Result<Next, FileFault>
    requires even { length draft.old.names ≡ length draft.old.jobs }
    requires few { length draft.old.names ≤ MOST_JOBS }
    ensures after { AfterJob frame.class frame.machines frame.time result draft.old (place_of lines.old) draft.new (place_of lines.new) }
    ensures few { OnOk result (length draft.new.names ≤ MOST_JOBS) }
    ensures even { OnOk result (length draft.new.names ≡ length draft.new.jobs) }
    ensures shrinks { OnOk result (length lines.new.rest.now < length lines.old.rest.now) }
{
    let at = lines.at;
    match line_at(lines) {
        Ok(line) => {
            let (word, fields) = split_word(line);
            job_or_other(alloc, frame, draft, at, word, fields, lines)
        }
        Err(fault) => Err(fault),
    }
}

/// Reads the lines after the head, up to the last one.
pub(crate) fn jobs_at(
    alloc: Global,
    frame: Frame,
    draft: &mut Draft,
    lines: &mut Lines<'_>,
) -> Result<(), FileFault>
    requires even { length draft.old.names ≡ length draft.old.jobs }
    requires few { length draft.old.names ≤ MOST_JOBS }
    ensures even { OnOk result (length draft.new.names ≡ length draft.new.jobs) }
    ensures moves { Moves (λ _. draft.new) result (place_of lines.new) (jobs_from frame.class frame.machines frame.time draft.old (place_of lines.old)) }
{
    'lines: loop {
        match job_step(alloc, frame, draft, lines) {
            Ok(Next::Job) => {}
            Ok(Next::Arc) => return arcs_at(draft, lines),
            Ok(Next::End) => return Ok(()),
            Err(fault) => return Err(fault),
        }
    }
}
