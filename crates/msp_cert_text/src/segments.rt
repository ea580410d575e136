// The lines of jobs, and of lists of jobs.
ghost use Rattle.std.specs.Prelude.{◌≡◌, ◌+◌, ◌<◌, ◌++◌, ◌∷◌, [], ℕ, List as Items, nat_lt, length, IsTrue, OnOk, IfOk, MatchResult, MatchBool, Ok};
ghost use Rattle.msp_class.specs.declared.list.TheConstants.{PLACES};
ghost use Rattle.msp_cert_text.specs.declared.kinds.TheConstants.{MOST_LINES};
ghost use Rattle.msp_grammar.specs.lines.Answers.{Fails, Gives};
ghost use Rattle.msp_grammar.specs.lines.Reading.{more_read, end_read, lines_from};
ghost use Rattle.msp_cert_text.specs.CertificateText.{segment_lines};
ghost use Rattle.msp_cert_text.specs.Reading.{job_in, jobs_step, with_job, is_segment_word, segment_added, segments_step, segments_from};
ghost use Rattle.msp_cert_text.specs.Steps.{lists_of};
ghost use Rattle.msp_grammar.specs.lines.Steps.{Moves, AfterLine, place_of, fields_after};

use crate::kinds::{MOST_LINES, is_word};
use msp_class::{List, NoMemory};
use msp_grammar::{
    FileFault, Lines, What, count_fields, end_line, known_at, line_at, next_field, split_word,
};
use msp_text::Names;
use std::alloc::Global;

/// Whether there may be one line more of a kind, after so many and more.
pub(crate) fn has_room(before: usize, more: usize) -> bool
    ensures { result ≡ nat_lt (before + more) MOST_LINES }
{
    before.saturating_add(more) < MOST_LINES
}

/// The job in the line with these fields.
#[tactic(auto, unfolding(crate::specs::Reading::job_in))]
fn job_in(at: u32, names: &Names, fields: &[u8]) -> Result<u32, FileFault>
    requires { length names.now < PLACES }
    ensures { Gives (λ j. j) result (job_in names.now at (fields_after fields.now)) }
{
    if count_fields(fields) != 1 {
        return Err(FileFault::Count { at });
    }
    let (field, _) = next_field(fields);
    known_at(at, names, field)
}

/// Reads a line after so many of the kind and these jobs, and answers whether it is a job.
#[tactic(auto, unfolding(crate::specs::Reading::jobs_step, crate::specs::Reading::job_added))]
fn jobs_step(
    names: &Names,
    before: usize,
    jobs: &mut List<u32>,
    lines: &mut Lines<'_>,
) -> Result<bool, FileFault>
    requires { length names.now < PLACES }
    ensures after { AfterLine (jobs_step names.now before) result jobs.old (place_of lines.old) jobs.new (place_of lines.new) }
    ensures shrinks { OnOk result (length lines.new.rest.now < length lines.old.rest.now) }
{
    let at = lines.at;
    let line = line_at(lines)?;
    let (word, fields) = split_word(line);
    if is_word(word, b"job") {
        if !has_room(before, jobs.len()) {
            return Err(FileFault::Limit {
                at,
                what: What::Lines,
            });
        }
        let job = job_in(at, names, fields)?;
        jobs.put(job)?;
        return Ok(true);
    }
    end_line(at, word, fields)?;
    Ok(false)
}

/// Reads the lines of jobs, after so many of the kind, up to the last one.
pub(crate) fn jobs_at(
    alloc: Global,
    names: &Names,
    before: usize,
    lines: &mut Lines<'_>,
) -> Result<List<u32>, FileFault>
    requires { length names.now < PLACES }
    ensures { Moves (λ x. x) result (place_of lines.new) (lines_from (jobs_step names.now before) [] (place_of lines.old)) }
{
    let mut jobs = List::new(alloc);
    'lines: while jobs_step(names, before, &mut jobs, lines)? {}
    Ok(jobs)
}

/// The lists of jobs that came to an end, and the last one.
#[derive(Drop)]
struct Segments {
    done: List<List<u32>>,
    last: List<u32>,
}

/// Begins a list.
fn begin(lists: &mut Segments) -> Result<(), NoMemory>
    ensures { OnOk result (lists_of lists.new ≡ lists_of lists.old ++ [] ∷ []) }
{
    let last = List::from_vec(lists.last.take_all());
    lists.done.put(last)
}

/// Puts a job at the end of the last list.
#[tactic(auto, using(crate::proofs::SegmentLaws::with_job_last))]
fn push(lists: &mut Segments, job: u32) -> Result<(), NoMemory>
    ensures { OnOk result (lists_of lists.new ≡ with_job (lists_of lists.old) job) }
{
    lists.last.put(job)
}

/// The list or the job in the line with this word and these fields.
#[tactic(auto, unfolding(crate::specs::Reading::segment_added), using(crate::proofs::SegmentLaws::count_rules))]
fn segment_added(
    at: u32,
    names: &Names,
    lists: &mut Segments,
    word: &[u8],
    fields: &[u8],
) -> Result<(), FileFault>
    requires { length names.now < PLACES }
    ensures gives { Gives (λ _. lists_of lists.new) result (segment_added names.now word.now at (lists_of lists.old) (fields_after fields.now)) }
    ensures count { OnOk result (length (segment_lines names.now (lists_of lists.new)) ≡ length (segment_lines names.now (lists_of lists.old)) + 1) }
{
    if is_word(word, b"segment") {
        if count_fields(fields) != 0 {
            return Err(FileFault::Count { at });
        }
        begin(lists)?;
        return Ok(());
    }
    let job = job_in(at, names, fields)?;
    push(lists, job)?;
    Ok(())
}

fn is_segment_word(word: &[u8]) -> bool
    ensures { (lists : Items (Items ℕ)) (last : Items ℕ) → result ≡ is_segment_word (lists ++ last ∷ []) word.now }
{
    is_word(word, b"segment") || is_word(word, b"job")
}

/// Reads a line after the first list began, and answers whether it begins a list or is a job.
#[tactic(auto, unfolding(crate::specs::Reading::segments_step))]
fn segments_step(
    names: &Names,
    before: usize,
    lists: &mut Segments,
    lines: &mut Lines<'_>,
) -> Result<bool, FileFault>
    requires names { length names.now < PLACES }
    requires before { before ≡ length (segment_lines names.now (lists_of lists.old)) }
    ensures after { AfterLine (segments_step names.now) result (lists_of lists.old) (place_of lines.old) (lists_of lists.new) (place_of lines.new) }
    ensures count { IfOk result (λ yes. IsTrue yes → (length (segment_lines names.now (lists_of lists.new)) ≡ before + 1) × (before < MOST_LINES)) }
    ensures shrinks { OnOk result (length lines.new.rest.now < length lines.old.rest.now) }
{
    let at = lines.at;
    let line = line_at(lines)?;
    let (word, fields) = split_word(line);
    if is_segment_word(word) {
        if !has_room(before, 0) {
            return Err(FileFault::Limit {
                at,
                what: What::Lines,
            });
        }
        segment_added(at, names, lists, word, fields)?;
        return Ok(true);
    }
    end_line(at, word, fields)?;
    Ok(false)
}

/// Reads the lines after the first list began, up to the last one.
fn lists_at(alloc: Global, names: &Names, lines: &mut Lines<'_>) -> Result<Segments, FileFault>
    requires { length names.now < PLACES }
    ensures { Moves lists_of result (place_of lines.new) (lines_from (segments_step names.now) ([] ∷ []) (place_of lines.old)) }
{
    let mut lists = Segments {
        done: List::new(alloc),
        last: List::new(alloc),
    };
    let mut before: usize = 1;
    'lines: while segments_step(names, before, &mut lists, lines)? {
        before += 1;
    }
    Ok(lists)
}

/// Reads the first line, and answers whether it begins a list.
#[tactic(auto, unfolding(crate::specs::Reading::segments_step, crate::specs::Reading::segment_added))]
fn first_list(lines: &mut Lines<'_>) -> Result<bool, FileFault>
    ensures { (names : Items (Items ℕ)) → MatchResult result (λ yes. MatchBool yes (segments_step names [] (place_of lines.old) ≡ Ok (more_read ([] ∷ []) (place_of lines.new)))
        (segments_step names [] (place_of lines.old) ≡ Ok (end_read [] (place_of lines.new)))) (λ e. Fails e (segments_step names [] (place_of lines.old))) }
{
    let at = lines.at;
    let line = line_at(lines)?;
    let (word, fields) = split_word(line);
    if is_word(word, b"segment") {
        if count_fields(fields) != 0 {
            return Err(FileFault::Count { at });
        }
        return Ok(true);
    }
    end_line(at, word, fields)?;
    Ok(false)
}

/// The lists with the last one.
fn finish(lists: Segments) -> Result<List<List<u32>>, NoMemory>
    ensures { IfOk result (λ all. all ≡ lists_of lists) }
{
    let Segments { mut done, last } = lists;
    done.put(last)?;
    Ok(done)
}

/// Reads the lines of lists, up to the last one.
#[tactic(auto, using(crate::proofs::SegmentLaws::first_rules))]
pub(crate) fn segments_at(
    alloc: Global,
    names: &Names,
    lines: &mut Lines<'_>,
) -> Result<List<List<u32>>, FileFault>
    requires { length names.now < PLACES }
    ensures { Moves (λ x. x) result (place_of lines.new) (segments_from names.now (place_of lines.old)) }
{
    if !first_list(lines)? {
        return Ok(List::new(alloc));
    }
    let lists = lists_at(alloc, names, lines)?;
    Ok(finish(lists)?)
}
