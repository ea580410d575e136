// The reader of schedule texts.
ghost use Rattle.std.specs.Prelude.{◌≡◌, ◌<◌, ◌≤◌, [], length, OnOk, IfOk, IfErr, Ok};
ghost use Rattle.msp_class.specs.declared.list.TheConstants.{PLACES};
ghost use Rattle.msp_pieces.specs.declared.Schedule.{Schedule as ScheduleValue};
ghost use Rattle.msp_pieces.specs.declared.Frac.{Frac as FracValue};
ghost use Rattle.msp_grammar.specs.ScheduleText.{IsScheduleText};
ghost use Rattle.msp_grammar.specs.declared.lines.limits.TheConstants.{MOST_BYTES, LAST_LINE};
ghost use Rattle.msp_grammar.specs.lines.Reading.{lines_from};
ghost use Rattle.msp_file.specs.schedule.Reading.{unit_at, moment_at, span_at, place_at, piece_at, piece_line_at, piece_step, said_of, stated_at, schedule_at};
ghost use Rattle.msp_grammar.specs.lines.Answers.{Gives};
ghost use Rattle.msp_file.specs.schedule.Answers.{IsScheduleFaultOf, IsScheduleFault, SchedulesReadOneWay, PrintedReadAgain};
ghost use Rattle.msp_grammar.specs.lines.Steps.{Moves, AfterLine, place_of, fields_after};

use msp_class::{List, MOST_OPERATIONS};
use msp_grammar::{
    FileFault, GREATEST_COST, Lines, MOST_BYTES, Stated, What, cost_line_at, count_fields,
    end_line, known_at, line_at, next_field, number_line_at, ordinal_at, split_word, wide_at,
    word_line_at,
};
use msp_instance::MOST_MACHINES;
use msp_pieces::{GREATEST_MOMENT, GREATEST_UNIT, MOST_PIECES, Piece, Schedule};
use msp_text::Names;
use std::alloc::Global;

#[tactic(auto, unfolding(crate::specs::schedule::Reading::unit_at))]
fn unit_at(lines: &mut Lines<'_>) -> Result<i128, FileFault>
    ensures { Moves (λ x. x) result (place_of lines.new) (unit_at (place_of lines.old)) }
{
    match number_line_at(lines, b"unit", What::Unit, GREATEST_UNIT as u64) {
        Ok(unit) => Ok(unit as i128),
        Err(fault) => Err(fault),
    }
}

#[tactic(auto, unfolding(crate::specs::schedule::Reading::moment_at))]
fn moment_at(at: u32, field: &[u8]) -> Result<i128, FileFault>
    ensures { result ≡ moment_at at field.now }
{
    match wide_at(at, What::Moment, 0, GREATEST_MOMENT as u128, field) {
        Ok(moment) => Ok(moment as i128),
        Err(fault) => Err(fault),
    }
}

/// The moments between which a piece runs.
#[tactic(auto, unfolding(crate::specs::schedule::Reading::span_at))]
fn span_at(at: u32, fields: &[u8]) -> Result<(i128, i128), FileFault>
    ensures { result ≡ span_at at (fields_after fields.now) }
{
    let (first, others) = next_field(fields);
    let (second, _) = next_field(others);
    match moment_at(at, first) {
        Ok(from) => match moment_at(at, second) {
            Ok(to) => Ok((from, to)),
            Err(fault) => Err(fault),
        },
        Err(fault) => Err(fault),
    }
}

/// The operation and the machine of a piece, and the fields after them.
#[tactic(auto, unfolding(crate::specs::schedule::Reading::place_at))]
fn place_at(at: u32, fields: &[u8]) -> Result<(u32, u32, &[u8]), FileFault>
    ensures { Gives (λ x. (x.0, x.1, fields_after x.2.now)) result (place_at at (fields_after fields.now)) }
{
    let (first, others) = next_field(fields);
    let (second, rest) = next_field(others);
    match ordinal_at(at, What::Place, MOST_OPERATIONS as u32, first) {
        Ok(op) => match ordinal_at(at, What::Place, MOST_MACHINES, second) {
            Ok(machine) => Ok((op, machine, rest)),
            Err(fault) => Err(fault),
        },
        Err(fault) => Err(fault),
    }
}

/// A piece of one of the named jobs.
#[tactic(auto, unfolding(crate::specs::schedule::Reading::piece_at))]
fn piece_at(at: u32, names: &Names, fields: &[u8]) -> Result<Piece, FileFault>
    requires { length names.now < PLACES }
    ensures { Gives (λ p. p) result (piece_at names.now at (fields_after fields.now)) }
{
    let (first, others) = next_field(fields);
    let job = known_at(at, names, first)?;
    let (op, machine, rest) = place_at(at, others)?;
    let (from, to) = span_at(at, rest)?;
    Ok(Piece {
        job,
        op,
        machine,
        from,
        to,
    })
}

/// The piece whose line has these fields, put at the end of the pieces.
#[tactic(auto, unfolding(crate::specs::schedule::Reading::piece_line_at))]
fn piece_line_at(
    at: u32,
    names: &Names,
    pieces: &mut List<Piece>,
    fields: &[u8],
) -> Result<(), FileFault>
    requires { length names.now < PLACES }
    ensures { Gives (λ _. pieces.new) result (piece_line_at names.now at pieces.old (fields_after fields.now)) }
{
    if pieces.len() >= MOST_PIECES {
        return Err(FileFault::Limit {
            at,
            what: What::Pieces,
        });
    }
    if count_fields(fields) != 5 {
        return Err(FileFault::Count { at });
    }
    let piece = piece_at(at, names, fields)?;
    pieces.put(piece)?;
    Ok(())
}

/// Reads a line after the unit, and answers whether it is a piece.
#[tactic(auto, unfolding(crate::specs::schedule::Reading::piece_step))]
fn piece_step(
    names: &Names,
    pieces: &mut List<Piece>,
    lines: &mut Lines<'_>,
) -> Result<bool, FileFault>
    requires { length names.now < PLACES }
    ensures after { AfterLine (piece_step names.now) result pieces.old (place_of lines.old) pieces.new (place_of lines.new) }
    ensures shrinks { OnOk result (length lines.new.rest.now < length lines.old.rest.now) }
{
    let at = lines.at;
    let line = line_at(lines)?;
    let (word, fields) = split_word(line);
    if *word == *b"piece".as_slice() {
        piece_line_at(at, names, pieces, fields)?;
        return Ok(true);
    }
    end_line(at, word, fields)?;
    Ok(false)
}

/// Reads the lines after the unit, up to the last one.
fn pieces_at(alloc: Global, names: &Names, lines: &mut Lines<'_>) -> Result<List<Piece>, FileFault>
    requires { length names.now < PLACES }
    ensures { Moves (λ x. x) result (place_of lines.new) (lines_from (piece_step names.now) [] (place_of lines.old)) }
{
    let mut pieces = List::new(alloc);
    'lines: while piece_step(names, &mut pieces, lines)? {}
    Ok(pieces)
}

/// Reads the lines of one schedule.
#[tactic(auto, unfolding(crate::specs::schedule::Reading::stated_at))]
fn stated_at(alloc: Global, names: &Names, lines: &mut Lines<'_>) -> Result<Stated, FileFault>
    requires { length names.now < PLACES }
    ensures { Moves said_of result (place_of lines.new) (stated_at names.now (place_of lines.old)) }
{
    word_line_at(lines, b"schedule")?;
    let cost = cost_line_at(lines, b"cost", GREATEST_COST)?;
    let unit = unit_at(lines)?;
    let pieces = pieces_at(alloc, names, lines)?;
    Ok(Stated {
        schedule: Schedule { unit, pieces },
        cost,
    })
}

/// Reads the lines of a text, which are those of one schedule and no more.
fn schedule_at(alloc: Global, names: &Names, bytes: &[u8], line: u32) -> Result<Stated, FileFault>
    requires names { length names.now < PLACES }
    requires bytes { length bytes.now ≤ MOST_BYTES }
    requires line { line ≤ LAST_LINE }
    ensures { Gives said_of result (schedule_at names.now line bytes.now) }
{
    let mut lines = Lines {
        at: line,
        rest: bytes,
    };
    let stated = stated_at(alloc, names, &mut lines)?;
    if !lines.rest.is_empty() {
        return Err(FileFault::After { at: lines.at });
    }
    Ok(stated)
}

/// Reads a schedule text, the first line of which has the number `line`. The fault is the first one. A name is one of the named jobs.
#[tactic(auto, using(crate::proofs::schedules::ScheduleLaws::schedule_rules))]
pub fn read_schedule(
    alloc: Global,
    names: &Names,
    bytes: &[u8],
    line: u32,
) -> Result<Stated, FileFault>
    requires bytes { length bytes.now ≤ MOST_BYTES }
    requires line { (1 ≤ line) × (line ≤ LAST_LINE) }
    ensures fault { IfErr result (λ e. IsScheduleFaultOf names.now line bytes.now e) }
    // What is read is a text of the schedule and its cost.
    ensures text { IfOk result (λ s. IsScheduleText bytes.now names.now s.schedule s.cost) }
    // A text of a schedule and its cost is read as these, unless memory runs out.
    ensures again { (s : ScheduleValue) (x : FracValue) → IsScheduleText bytes.now names.now s x → Gives (λ f. f) result (Ok (record { schedule = s; cost = x })) }
    // A schedule text has only these faults.
    ensures schedule_faults { IfErr result (λ e. IsScheduleFault e) }
{
    // More names than a piece can number are more than memory holds.
    if names.len() > u32::MAX as usize {
        return Err(FileFault::Memory);
    }
    schedule_at(alloc, names, bytes, line)
}

/// Each schedule text is read in one way: reading gives one schedule or one first fault.
pub fn schedules_are_read_one_way()
    ensures { SchedulesReadOneWay }
{}

/// The printed text of a schedule is read as that schedule and its cost.
pub fn printed_schedules_are_read()
    ensures { PrintedReadAgain }
{}
