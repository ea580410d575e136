// The lines before those of the jobs.
ghost use Rattle.std.specs.Prelude.{◌≡◌, ◌<◌, ◌≤◌, [], length, All, IfOk, OnOk, MatchResult};
ghost use Rattle.msp_class.specs.declared.list.TheConstants.{PLACES};
ghost use Rattle.msp_class.specs.declared.sizes.TheConstants.{GREATEST_SPEED};
ghost use Rattle.msp_grammar.specs.lines.Answers.{Fails, Gives};
ghost use Rattle.msp_grammar.specs.lines.Reading.{fields_of, number_line_at};
ghost use Rattle.msp_file.specs.instance.Reading.{version_at, class_in, class_at, machines_line_at, machines_at, speeds_in, speeds_line_at, speeds_at, time_line_at, time_at};
ghost use Rattle.msp_grammar.specs.lines.Steps.{Leads, Moves, place_of, fields_after};

use msp_class::{Class, Env, List, Times, fixed_machines};
use msp_grammar::{
    FileFault, Lines, What, count_fields, has_speeds, has_time_line, line_at, natural_at,
    next_field, number_line_at, split_word, worded_at,
};
use msp_instance::{GREATEST_EQUAL_TIME, GREATEST_SPEED, MOST_MACHINES};
use msp_name::parse;
use std::alloc::Global;

/// The first line.
#[tactic(auto, unfolding(crate::specs::instance::Reading::version_at))]
pub(crate) fn version_at(lines: &mut Lines<'_>) -> Result<(), FileFault>
    ensures { MatchResult result (λ _. version_at (place_of lines.old) ≡ Ok (place_of lines.new)) (λ e. Fails e (version_at (place_of lines.old))) }
{
    let at = lines.at;
    let line = line_at(lines)?;
    if *line != *b"msp 1".as_slice() {
        return Err(FileFault::Head { at });
    }
    Ok(())
}

/// The class of a line.
fn class_in(at: u32, line: &[u8]) -> Result<Class, FileFault>
    requires { length line.now < PLACES }
    ensures { result ≡ class_in at (fields_of line.now) }
{
    let (word, rest) = split_word(line);
    if *word != *b"class".as_slice() || count_fields(rest) != 1 {
        return Err(FileFault::Head { at });
    }
    let (name, _) = next_field(rest);
    match parse(name) {
        Ok(class) => Ok(class),
        Err(_) => Err(FileFault::Head { at }),
    }
}

/// The second line.
#[tactic(auto, unfolding(crate::specs::instance::Reading::class_at))]
pub(crate) fn class_at(lines: &mut Lines<'_>) -> Result<Class, FileFault>
    ensures { Moves (λ c. c) result (place_of lines.new) (class_at (place_of lines.old)) }
{
    let at = lines.at;
    let line = line_at(lines)?;
    class_in(at, line)
}

fn machines_line_at(lines: &mut Lines<'_>) -> Result<u32, FileFault>
    ensures moves { Moves (λ m. m) result (place_of lines.new) (machines_line_at (place_of lines.old)) }
{
    match number_line_at(lines, b"machines", What::Machines, MOST_MACHINES as u64) {
        Ok(machines) => Ok(machines as u32),
        Err(fault) => Err(fault),
    }
}

/// The number of machines.
#[tactic(auto, unfolding(crate::specs::instance::Reading::machines_at))]
pub(crate) fn machines_at(env: Env, lines: &mut Lines<'_>) -> Result<u32, FileFault>
    ensures { Moves (λ m. m) result (place_of lines.new) (machines_at env (place_of lines.old)) }
{
    match fixed_machines(env) {
        Some(machines) => Ok(machines),
        None => machines_line_at(lines),
    }
}

/// The speed in the next field, put at the end of the speeds.
#[tactic(auto, unfolding(crate::specs::instance::Reading::speeds_in))]
fn take_speed<'a>(at: u32, speeds: &mut List<u64>, rest: &'a [u8]) -> Result<&'a [u8], FileFault>
    requires some { 0 < length rest.now }
    requires range { All (λ s. (1 ≤ s) × (s ≤ GREATEST_SPEED)) speeds.old }
    ensures leads { Leads (λ more. speeds_in at speeds.new (fields_after more.now)) result (speeds_in at speeds.old (fields_after rest.now)) }
    ensures range { OnOk result (All (λ s. (1 ≤ s) × (s ≤ GREATEST_SPEED)) speeds.new) }
    ensures more { IfOk result (λ more. length more.now < length rest.now) }
{
    let (field, more) = next_field(rest);
    match natural_at(at, What::Speed, 1, GREATEST_SPEED, field) {
        Ok(speed) => {
            speeds.put(speed)?;
            Ok(more)
        }
        Err(fault) => Err(fault),
    }
}

#[tactic(auto, unfolding(crate::specs::instance::Reading::speeds_in))]
fn speeds_in(alloc: Global, at: u32, fields: &[u8]) -> Result<List<u64>, FileFault>
    ensures gives { Gives (λ x. x) result (speeds_in at [] (fields_after fields.now)) }
    ensures range { IfOk result (λ speeds. All (λ s. (1 ≤ s) × (s ≤ GREATEST_SPEED)) speeds) }
{
    let mut speeds = List::new(alloc);
    let mut rest = fields;
    'fields: while !rest.is_empty() {
        rest = take_speed(at, &mut speeds, rest)?;
    }
    Ok(speeds)
}

/// The line with the speeds of the machines.
#[tactic(auto, unfolding(crate::specs::instance::Reading::speeds_line_at))]
fn speeds_line_at(
    alloc: Global,
    machines: u32,
    lines: &mut Lines<'_>,
) -> Result<List<u64>, FileFault>
    ensures moves { Moves (λ x. x) result (place_of lines.new) (speeds_line_at machines (place_of lines.old)) }
    ensures range { IfOk result (λ speeds. All (λ s. (1 ≤ s) × (s ≤ GREATEST_SPEED)) speeds) }
{
    let at = lines.at;
    let fields = worded_at(lines, b"speeds")?;
    if count_fields(fields) != machines as usize {
        return Err(FileFault::Count { at });
    }
    speeds_in(alloc, at, fields)
}

/// The speeds of the machines.
#[tactic(auto, unfolding(crate::specs::instance::Reading::speeds_at))]
pub(crate) fn speeds_at(
    alloc: Global,
    env: Env,
    machines: u32,
    lines: &mut Lines<'_>,
) -> Result<List<u64>, FileFault>
    ensures moves { Moves (λ x. x) result (place_of lines.new) (speeds_at env machines (place_of lines.old)) }
    ensures range { IfOk result (λ speeds. All (λ s. (1 ≤ s) × (s ≤ GREATEST_SPEED)) speeds) }
{
    if has_speeds(env) {
        return speeds_line_at(alloc, machines, lines);
    }
    Ok(List::new(alloc))
}

fn time_line_at(lines: &mut Lines<'_>) -> Result<u64, FileFault>
    ensures moves { Moves (λ x. x) result (place_of lines.new) (time_line_at (place_of lines.old)) }
{
    number_line_at(lines, b"time", What::Time, GREATEST_EQUAL_TIME)
}

/// The time that all operations share, and 1 in classes without one.
#[tactic(auto, unfolding(crate::specs::instance::Reading::time_at))]
pub(crate) fn time_at(times: Times, lines: &mut Lines<'_>) -> Result<u64, FileFault>
    ensures { Moves (λ x. x) result (place_of lines.new) (time_at times (place_of lines.old)) }
{
    if has_time_line(times) {
        return time_line_at(lines);
    }
    Ok(1)
}
