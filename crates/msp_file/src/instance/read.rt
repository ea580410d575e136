// The reader of instance texts.
ghost use Rattle.std.specs.Prelude.{◌≡◌, ◌≢◌, ℕ, ◌≤◌, List as Items, length, AllPairs, IfOk, IfErr, MatchResult, Ok};
ghost use Rattle.msp_instance.specs.declared.Instance.{Instance as InstanceValue};
ghost use Rattle.msp_instance.specs.Conditions.{MeetsConditions, text_limits, InClass};
ghost use Rattle.msp_grammar.specs.declared.lines.limits.TheConstants.{MOST_BYTES};
ghost use Rattle.msp_file.specs.instance.Answers.{faulty_name, IsTextFault, IsFrontFault, IsFaultOf, IsFrontFaultOf, IsFrontText, ReadsOneWay};
ghost use Rattle.msp_grammar.specs.lines.Answers.{Gives};
ghost use Rattle.msp_grammar.specs.InstanceText.{IsInstanceText};
ghost use Rattle.msp_file.specs.instance.Reading.{jobs_from, timed_from, speeds_from, lines_at, filed_at, filed_of, no_draft};
ghost use Rattle.msp_grammar.specs.lines.Steps.{Moves, place_of};
ghost use Rattle.msp_file.specs.instance.Steps.{IsFaultOfFiled};

use crate::instance::arcs::Arcs;
use crate::instance::draft::{Draft, Frame, jobs_at};
use crate::instance::head::{class_at, machines_at, speeds_at, time_at, version_at};
use msp_class::{Class, List};
use msp_grammar::{FileFault, Filed, Lines, What};
use msp_instance::{
    ClassFault, Instance, OrderFault, check_distinct_arcs, forward, has_small_multiple,
};
use msp_text::{JobName, Names};
use std::alloc::Global;

fn no_draft(alloc: Global) -> Draft
    ensures { result ≡ no_draft }
{
    Draft {
        names: Names::new(alloc),
        jobs: List::new(alloc),
        arcs: Arcs::new(alloc),
    }
}

fn filed_of(class: Class, machines: u32, speeds: List<u64>, draft: Draft) -> Filed
    ensures { result ≡ filed_of class machines speeds draft }
{
    let Draft { names, jobs, arcs } = draft;
    Filed {
        instance: Instance {
            class,
            machines,
            speeds,
            jobs,
            arcs: arcs.listed(),
        },
        names,
    }
}

/// Reads the lines after the head.
fn rest_at(alloc: Global, frame: Frame, lines: &mut Lines<'_>) -> Result<Draft, FileFault>
    ensures even { IfOk result (λ d. length d.names ≡ length d.jobs) }
    ensures moves { Moves (λ d. d) result (place_of lines.new) (jobs_from frame.class frame.machines frame.time no_draft (place_of lines.old)) }
{
    let mut draft = no_draft(alloc);
    match jobs_at(alloc, frame, &mut draft, lines) {
        Ok(()) => Ok(draft),
        Err(fault) => {
            drop(draft);
            Err(fault)
        }
    }
}

/// Reads the lines after those of the speeds.
#[tactic(auto, unfolding(crate::specs::instance::Reading::timed_from))]
fn timed_at(
    alloc: Global,
    class: Class,
    machines: u32,
    lines: &mut Lines<'_>,
) -> Result<Draft, FileFault>
    ensures even { IfOk result (λ d. length d.names ≡ length d.jobs) }
    ensures moves { Moves (λ d. d) result (place_of lines.new) (timed_from class machines (place_of lines.old)) }
{
    match time_at(class.times, lines) {
        Ok(time) => {
            let frame = Frame {
                class,
                machines,
                time,
            };
            rest_at(alloc, frame, lines)
        }
        Err(fault) => Err(fault),
    }
}

/// Reads the lines after those of the machines.
#[tactic(auto, unfolding(crate::specs::instance::Reading::speeds_from))]
fn speeds_on(
    alloc: Global,
    class: Class,
    machines: u32,
    lines: &mut Lines<'_>,
) -> Result<Filed, FileFault>
    ensures even { IfOk result (λ f. length f.names ≡ length f.instance.jobs) }
    ensures moves { Moves (λ f. f) result (place_of lines.new) (speeds_from class machines (place_of lines.old)) }
{
    let at = lines.at;
    let speeds = speeds_at(alloc, class.env, machines, lines)?;
    if !has_small_multiple(speeds.as_slice()) {
        return Err(FileFault::Limit {
            at,
            what: What::Multiple,
        });
    }
    match timed_at(alloc, class, machines, lines) {
        Ok(draft) => Ok(filed_of(class, machines, speeds, draft)),
        Err(fault) => Err(fault),
    }
}

/// Reads the lines of one instance.
#[tactic(auto, unfolding(crate::specs::instance::Reading::lines_at))]
fn lines_at(alloc: Global, lines: &mut Lines<'_>) -> Result<Filed, FileFault>
    ensures even { IfOk result (λ f. length f.names ≡ length f.instance.jobs) }
    ensures moves { Moves (λ f. f) result (place_of lines.new) (lines_at (place_of lines.old)) }
{
    version_at(lines)?;
    let class = class_at(lines)?;
    let machines = machines_at(class.env, lines)?;
    speeds_on(alloc, class, machines, lines)
}

/// Reads the lines of a text, which are those of one instance and no more.
fn filed_at(alloc: Global, bytes: &[u8]) -> Result<Filed, FileFault>
    requires { length bytes.now ≤ MOST_BYTES }
    ensures even { IfOk result (λ f. length f.names ≡ length f.instance.jobs) }
    ensures gives { Gives (λ f. f) result (filed_at bytes.now) }
{
    let mut lines = Lines { at: 1, rest: bytes };
    let filed = lines_at(alloc, &mut lines)?;
    if !lines.rest.is_empty() {
        drop(filed);
        return Err(FileFault::After { at: lines.at });
    }
    Ok(filed)
}

/// The name of the job that a fault of the class names, if it names one.
fn faulty_name(names: &Names, fault: ClassFault) -> Option<JobName>
    ensures { result ≡ faulty_name names.now fault }
{
    match fault {
        ClassFault::Need { job }
        | ClassFault::Unit { job }
        | ClassFault::Head { job }
        | ClassFault::Due { job }
        | ClassFault::Weight { job }
        | ClassFault::Curve { job }
        | ClassFault::Degree { job } => names.get(job as usize),
        ClassFault::Jobs
        | ClassFault::Machines
        | ClassFault::Speeds
        | ClassFault::Multiple
        | ClassFault::Arcs
        | ClassFault::Arc { .. } => None,
    }
}

/// The first condition that the instance breaks, as a fault of its text.
fn check_class(filed: &Filed) -> Result<(), FileFault>
    requires { AllPairs (λ a b. a ≢ b) filed.now.instance.arcs }
    ensures { MatchResult result (λ _. MeetsConditions text_limits filed.now.instance) (λ e. IsFaultOfFiled filed.now e) }
{
    match check_distinct_arcs(&filed.instance) {
        Ok(()) => Ok(()),
        Err(fault) => Err(FileFault::Class {
            fault,
            name: faulty_name(&filed.names, fault),
        }),
    }
}

/// Whether the instance is in its class: the first condition that it breaks, and else the least job on a cycle, as a fault of the text.
fn check_filed(alloc: Global, filed: &Filed) -> Result<(), FileFault>
    requires even { length filed.now.names ≡ length filed.now.instance.jobs }
    requires once { AllPairs (λ a b. a ≢ b) filed.now.instance.arcs }
    ensures { MatchResult result (λ _. InClass filed.now.instance) (λ e. IsFaultOfFiled filed.now e) }
{
    check_class(filed)?;
    match forward(alloc, &filed.instance) {
        Ok(_) => Ok(()),
        Err(OrderFault::Memory) => Err(FileFault::Memory),
        Err(OrderFault::Cycle { job }) => match filed.names.get(job as usize) {
            Some(name) => Err(FileFault::Cycle { job, name }),
            None => unreachable!(),
        },
    }
}

/// The same instance, where it is in its class.
fn checked(alloc: Global, filed: Filed) -> Result<Filed, FileFault>
    requires even { length filed.names ≡ length filed.instance.jobs }
    requires once { AllPairs (λ a b. a ≢ b) filed.instance.arcs }
    ensures { MatchResult result (λ f. (f ≡ filed) × InClass filed.instance) (λ e. IsFaultOfFiled filed e) }
{
    match check_filed(alloc, &filed) {
        Ok(()) => Ok(filed),
        Err(fault) => {
            drop(filed);
            Err(fault)
        }
    }
}

/// Reads a whole instance text. The instance is in its class, and the fault is the first one: of the lines in order, then of the
/// class, then a cycle.
pub fn read_instance(alloc: Global, bytes: &[u8]) -> Result<Filed, FileFault>
    requires { length bytes.now ≤ MOST_BYTES }
    ensures fault { IfErr result (λ e. IsFaultOf bytes.now e) }
    // What is read is the text of the instance.
    ensures text { IfOk result (λ f. IsInstanceText bytes.now f.instance f.names) }
    // The text of an instance is read as that instance, unless memory runs out.
    ensures again { (i : InstanceValue) (names : Items (Items ℕ)) → IsInstanceText bytes.now i names → Gives (λ f. f) result (Ok (record { instance = i; names = names })) }
    // A text breaks at most these conditions of its class.
    ensures class_faults { IfErr result (λ e. IsTextFault e) }
{
    let read = filed_at(alloc, bytes)?;
    let filed = checked(alloc, read)?;
    Ok(filed)
}

/// An instance that stands as a text at the front of other bytes.
#[derive(Drop)]
pub struct Front {
    pub filed: Filed,
    /// How many bytes the text has.
    pub used: usize,
    /// The number of the line after the text, from 1.
    pub line: u32,
}

/// Reads the instance text at the front of the bytes, whatever follows it. The instance is in its class, and the fault is the first
/// one: of the lines in order, then of the class, then a cycle.
pub fn read_front(alloc: Global, bytes: &[u8]) -> Result<Front, FileFault>
    requires { length bytes.now ≤ MOST_BYTES }
    ensures fault { IfErr result (λ e. IsFrontFaultOf bytes.now e) }
    // What is read is the text of the instance, and all after it is left.
    ensures text { IfOk result (λ f. IsFrontText bytes.now f.filed.instance f.filed.names f.used f.line) }
    // The text of an instance at the front is read as that instance, unless memory runs out.
    ensures again { (i : InstanceValue) (names : Items (Items ℕ)) (used line : ℕ) → IsFrontText bytes.now i names used line
        → Gives (λ f. f) result (Ok (record { filed = record { instance = i; names = names }; used = used; line = line })) }
    // A text breaks at most these conditions of its class, and what follows it is no fault.
    ensures front_faults { IfErr result (λ e. IsFrontFault e) }
{
    let mut lines = Lines { at: 1, rest: bytes };
    let read = lines_at(alloc, &mut lines)?;
    let filed = checked(alloc, read)?;
    Ok(Front {
        filed,
        used: bytes.len() - lines.rest.len(),
        line: lines.at,
    })
}

/// Each text is read in one way: reading gives one instance or one first fault.
pub fn texts_are_read_one_way()
    ensures { ReadsOneWay }
{}
