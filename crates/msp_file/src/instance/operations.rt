// The lines of a job's operations.
ghost use Rattle.std.specs.Prelude.{◌≡◌, ◌+◌, ◌<◌, ◌≤◌, [], length, map, IfOk, OnOk, MatchResult};
ghost use Rattle.std.specs.List.{range_with_len};
ghost use Rattle.msp_class.specs.declared.list.TheConstants.{PLACES};
ghost use Rattle.msp_class.specs.Env.{kind_of};
ghost use Rattle.msp_grammar.specs.lines.Answers.{Gives};
ghost use Rattle.msp_grammar.specs.lines.Reading.{machine_at};
ghost use Rattle.msp_file.specs.instance.Reading.{with_need, times_at, timed_route_at, machine_route_at, operations_at, operations_in, is_route_count, times_line_at};
ghost use Rattle.msp_file.specs.instance.Reading.{route_line_at, unwritten_needs, needs_at};
ghost use Rattle.msp_grammar.specs.lines.Steps.{Leads, Moves, place_of, fields_after, slice_limit};

use msp_class::{Class, Env, List, MOST_OPERATIONS, NoMemory, env_kind, most_operations};
use msp_grammar::{
    FileFault, Lines, What, count_fields, has_one_time, has_route, has_times, has_times_line,
    natural_at, next_field, ordinal_at, worded_at,
};
use msp_instance::{GREATEST, Need, least_time};
use std::alloc::Global;

/// Puts a need at the end.
fn push_need(needs: &mut List<Need>, machine: u32, time: u64) -> Result<(), NoMemory>
    ensures { OnOk result (needs.new ≡ with_need needs.old machine time) }
{
    needs.put(Need { machine, time })
}

/// The time in the next field, put at the end of the needs. What is left are the other fields.
#[tactic(auto, unfolding(crate::specs::instance::Reading::times_at))]
fn take_time<'a>(
    at: u32,
    least: u64,
    needs: &mut List<Need>,
    rest: &'a [u8],
) -> Result<&'a [u8], FileFault>
    requires some { 0 < length rest.now }
    requires few { length needs.old < PLACES }
    ensures leads { Leads (λ more. times_at at least needs.new (fields_after more.now)) result (times_at at least needs.old (fields_after rest.now)) }
    ensures more { IfOk result (λ more. (length needs.new ≡ length needs.old + 1) × (length more.now < length rest.now)) }
{
    let machine = needs.len() as u32;
    let (field, more) = next_field(rest);
    match natural_at(at, What::Time, least, GREATEST, field) {
        Ok(time) => {
            push_need(needs, machine, time)?;
            Ok(more)
        }
        Err(fault) => Err(fault),
    }
}

/// One time for each machine in order.
#[tactic(auto, unfolding(crate::specs::instance::Reading::times_at))]
fn times_at(alloc: Global, at: u32, least: u64, fields: &[u8]) -> Result<List<Need>, FileFault>
    requires { length fields.now < PLACES }
    ensures { Gives (λ x. x) result (times_at at least [] (fields_after fields.now)) }
{
    let mut needs = List::new(alloc);
    let mut rest = fields;
    'fields: while !rest.is_empty() {
        rest = take_time(at, least, &mut needs, rest)?;
    }
    Ok(needs)
}

/// The number of a machine, from 0.
fn machine_at(at: u32, machines: u32, field: &[u8]) -> Result<u32, FileFault>
    ensures { result ≡ machine_at at machines field.now }
{
    ordinal_at(at, What::Machines, machines, field)
}

/// The machine and the time in the next two fields, put at the end of the needs.
#[tactic(auto, unfolding(crate::specs::instance::Reading::timed_route_at))]
fn take_timed<'a>(
    at: u32,
    machines: u32,
    needs: &mut List<Need>,
    rest: &'a [u8],
) -> Result<&'a [u8], FileFault>
    requires { 0 < length rest.now }
    ensures leads { Leads (λ more. timed_route_at at machines needs.new (fields_after more.now)) result (timed_route_at at machines needs.old (fields_after rest.now)) }
    ensures more { IfOk result (λ more. length more.now < length rest.now) }
{
    let (word, others) = next_field(rest);
    if others.is_empty() {
        return Err(FileFault::Count { at });
    }
    let (second, more) = next_field(others);
    let machine = machine_at(at, machines, word)?;
    let time = natural_at(at, What::Time, 1, GREATEST, second)?;
    push_need(needs, machine, time)?;
    Ok(more)
}

/// Machines in order, each with its time.
#[tactic(auto, unfolding(crate::specs::instance::Reading::timed_route_at))]
fn timed_route_at(
    alloc: Global,
    at: u32,
    machines: u32,
    fields: &[u8],
) -> Result<List<Need>, FileFault>
    ensures { Gives (λ x. x) result (timed_route_at at machines [] (fields_after fields.now)) }
{
    let mut needs = List::new(alloc);
    let mut rest = fields;
    'fields: while !rest.is_empty() {
        rest = take_timed(at, machines, &mut needs, rest)?;
    }
    Ok(needs)
}

/// The machine in the next field, put at the end of the needs with this time.
#[tactic(auto, unfolding(crate::specs::instance::Reading::machine_route_at))]
fn take_machine<'a>(
    at: u32,
    machines: u32,
    time: u64,
    needs: &mut List<Need>,
    rest: &'a [u8],
) -> Result<&'a [u8], FileFault>
    requires { 0 < length rest.now }
    ensures leads { Leads (λ more. machine_route_at at machines time needs.new (fields_after more.now)) result (machine_route_at at machines time needs.old (fields_after rest.now)) }
    ensures more { IfOk result (λ more. length more.now < length rest.now) }
{
    let (word, more) = next_field(rest);
    match machine_at(at, machines, word) {
        Ok(machine) => {
            push_need(needs, machine, time)?;
            Ok(more)
        }
        Err(fault) => Err(fault),
    }
}

/// Machines in order, each with the same time.
#[tactic(auto, unfolding(crate::specs::instance::Reading::machine_route_at))]
fn machine_route_at(
    alloc: Global,
    at: u32,
    machines: u32,
    time: u64,
    fields: &[u8],
) -> Result<List<Need>, FileFault>
    ensures { Gives (λ x. x) result (machine_route_at at machines time [] (fields_after fields.now)) }
{
    let mut needs = List::new(alloc);
    let mut rest = fields;
    'fields: while !rest.is_empty() {
        rest = take_machine(at, machines, time, &mut needs, rest)?;
    }
    Ok(needs)
}

/// The operations of a route, with their times, or where times are not written with this one.
fn operations_at(
    alloc: Global,
    timed: bool,
    at: u32,
    machines: u32,
    time: u64,
    fields: &[u8],
) -> Result<List<Need>, FileFault>
    ensures { Gives (λ x. x) result (operations_at timed at machines time (fields_after fields.now)) }
{
    if timed {
        timed_route_at(alloc, at, machines, fields)
    } else {
        machine_route_at(alloc, at, machines, time, fields)
    }
}

/// The line with a job's times on the machines.
#[tactic(auto, unfolding(crate::specs::instance::Reading::times_line_at))]
fn times_line_at(
    alloc: Global,
    least: u64,
    machines: u32,
    lines: &mut Lines<'_>,
) -> Result<List<Need>, FileFault>
    ensures moves { Moves (λ x. x) result (place_of lines.new) (times_line_at least machines (place_of lines.old)) }
    ensures shrinks { OnOk result (length lines.new.rest.now ≤ length lines.old.rest.now) }
{
    let at = lines.at;
    let fields = worded_at(lines, b"times")?;
    if count_fields(fields) != machines as usize {
        return Err(FileFault::Count { at });
    }
    times_at(alloc, at, least, fields)
}

/// How many operations so many fields begin.
fn operations_in(timed: bool, fields: usize) -> usize
    requires { fields < slice_limit }
    ensures { result ≡ operations_in timed fields }
{
    if timed { (fields + 1) / 2 } else { fields }
}

/// Whether so many fields are those of at least one and at most so many operations.
fn is_route_count(timed: bool, most: usize, fields: usize) -> bool
    requires { fields < slice_limit }
    ensures { result ≡ is_route_count timed most fields }
{
    let operations = operations_in(timed, fields);
    let whole = if timed { fields % 2 == 0 } else { true };
    1 <= operations && operations <= most && whole
}

/// The line with a job's route.
#[tactic(auto, unfolding(crate::specs::instance::Reading::route_line_at))]
fn route_line_at(
    alloc: Global,
    timed: bool,
    most: usize,
    machines: u32,
    time: u64,
    lines: &mut Lines<'_>,
) -> Result<List<Need>, FileFault>
    ensures moves { Moves (λ x. x) result (place_of lines.new) (route_line_at timed most machines time (place_of lines.old)) }
    ensures shrinks { OnOk result (length lines.new.rest.now ≤ length lines.old.rest.now) }
{
    let at = lines.at;
    let fields = worded_at(lines, b"route")?;
    let count = count_fields(fields);
    if operations_in(timed, count) > MOST_OPERATIONS {
        return Err(FileFault::Limit {
            at,
            what: What::Route,
        });
    }
    if !is_route_count(timed, most, count) {
        return Err(FileFault::Count { at });
    }
    operations_at(alloc, timed, at, machines, time, fields)
}

/// One need for each machine, all with this time.
fn same_needs(alloc: Global, machines: u32, time: u64) -> Result<List<Need>, FileFault>
    ensures { MatchResult result (λ needs. needs ≡ map (λ q. record { machine = q; time = time }) (range_with_len 0 machines)) (λ e. e ≡ FileFault.Memory) }
{
    let mut needs = List::new(alloc);
    for machine in 0..machines {
        push_need(&mut needs, machine, time)?;
    }
    Ok(needs)
}

/// The needs that no line writes.
fn unwritten_needs(
    alloc: Global,
    env: Env,
    machines: u32,
    time: u64,
) -> Result<List<Need>, FileFault>
    ensures { MatchResult result (λ needs. needs ≡ unwritten_needs (kind_of env) machines time) (λ e. e ≡ FileFault.Memory) }
{
    if !has_one_time(env) {
        return same_needs(alloc, machines, time);
    }
    let mut needs = List::new(alloc);
    push_need(&mut needs, 0, time)?;
    Ok(needs)
}

/// The needs of a job. Where no line writes a time, it is this one.
#[tactic(auto, unfolding(crate::specs::instance::Reading::needs_at))]
pub(crate) fn needs_at(
    alloc: Global,
    class: Class,
    machines: u32,
    time: u64,
    lines: &mut Lines<'_>,
) -> Result<List<Need>, FileFault>
    ensures moves { Moves (λ x. x) result (place_of lines.new) (needs_at class machines time (place_of lines.old)) }
    ensures shrinks { OnOk result (length lines.new.rest.now ≤ length lines.old.rest.now) }
{
    if has_times_line(class) {
        let least = least_time(env_kind(class.env), class.times);
        times_line_at(alloc, least, machines, lines)
    } else if has_route(class.env) {
        let timed = has_times(class.times);
        let most = most_operations(class.env);
        route_line_at(alloc, timed, most, machines, time, lines)
    } else {
        unwritten_needs(alloc, class.env, machines, time)
    }
}
