// The report of `check`.
ghost use Rattle.std.specs.Prelude.{◌≡◌, ◌+◌, ◌++◌, ◌↔◌, IsTrue, OnOk, IfOk, IsNone, decimal};
ghost use Rattle.msp_instance.specs.Conditions.{InClass};
ghost use Rattle.msp_pieces.specs.Feasible.{Feasible};
ghost use Rattle.msp_pieces.specs.Fraction.{IsSameFraction, IsLowest};
ghost use Rattle.msp_grammar.specs.ScheduleText.{IsStated};
ghost use Rattle.msp_report.specs.CheckText.{count_lines, numbers_text, operation_text, break_text, broken_lines, yes_or_no, cost_lines, StatesItsCost, AreCostLines, AreCheckLines, IsCheckText};

use crate::lines::{put_class_line, put_number_line};
use msp_class::NoMemory;
use msp_grammar::{Filed, Stated, put_fraction, put_name};
use msp_instance::Instance;
use msp_schedule::{Break, Frac, Schedule, cost, lowest};
use msp_text::Part::{Number, Text};
use msp_text::{Names, put, put_all};
use std::alloc::Global;

#[tactic(auto, unfolding(crate::specs::CheckText::count_lines))]
fn put_counts(out: &mut Vec<u8>, inst: &Instance, s: &Schedule) -> Result<(), NoMemory>
    ensures { OnOk result (out.new.items ≡ out.old.items ++ count_lines inst.now s.now) }
{
    put_class_line(out, inst.class)?;
    put_number_line(out, b"jobs ", inst.jobs.len() as u64)?;
    put_number_line(out, b"pieces ", s.pieces.len() as u64)
}

/// Puts a word, and a number counted from 1.
fn put_numbered(out: &mut Vec<u8>, word: &[u8], number: u32) -> Result<(), NoMemory>
    ensures { OnOk result (out.new.items ≡ out.old.items ++ (word.now ++ decimal (number + 1))) }
{
    put_all(out, &[Text(word), Number(number as u64 + 1)])
}

fn put_two(out: &mut Vec<u8>, word: &[u8], first: u32, second: u32) -> Result<(), NoMemory>
    ensures { OnOk result (out.new.items ≡ out.old.items ++ (word.now ++ numbers_text first second)) }
{
    put_numbered(out, word, first)?;
    put_numbered(out, b" ", second)
}

fn put_operation(
    out: &mut Vec<u8>,
    word: &[u8],
    names: &Names,
    job: u32,
    op: u32,
) -> Result<(), NoMemory>
    ensures { OnOk result (out.new.items ≡ out.old.items ++ (word.now ++ operation_text names.now job op)) }
{
    put(out, word)?;
    put_name(out, names, job)?;
    put_numbered(out, b" ", op)
}

#[tactic(auto, unfolding(crate::specs::CheckText::break_text))]
fn put_break(out: &mut Vec<u8>, names: &Names, broken: Break) -> Result<(), NoMemory>
    ensures { OnOk result (out.new.items ≡ out.old.items ++ break_text names.now broken) }
{
    match broken {
        Break::Span { piece } => put_numbered(out, b"span ", piece),
        Break::Place { piece } => put_numbered(out, b"place ", piece),
        Break::Machine { first, second } => put_two(out, b"machine ", first, second),
        Break::Job { first, second } => put_two(out, b"job ", first, second),
        Break::Release { piece } => put_numbered(out, b"release ", piece),
        Break::Arc { at } => put_numbered(out, b"arc ", at),
        Break::Route { job, op } => put_operation(out, b"route ", names, job, op),
        Break::Work { job, op } => put_operation(out, b"work ", names, job, op),
    }
}

#[tactic(auto, unfolding(crate::specs::CheckText::broken_lines))]
fn put_broken(out: &mut Vec<u8>, names: &Names, broken: Break) -> Result<(), NoMemory>
    ensures { OnOk result (out.new.items ≡ out.old.items ++ broken_lines names.now broken) }
{
    put(out, b"feasible no\nbreak ")?;
    put_break(out, names, broken)?;
    put(out, b"\n")
}

pub(crate) fn put_yes_or_no(out: &mut Vec<u8>, agrees: bool) -> Result<(), NoMemory>
    ensures { OnOk result (out.new.items ≡ out.old.items ++ yes_or_no agrees) }
{
    if agrees {
        put(out, b"yes")
    } else {
        put(out, b"no")
    }
}

#[tactic(auto, unfolding(crate::specs::CheckText::cost_lines))]
fn put_costs(out: &mut Vec<u8>, cost: Frac, stated: Frac, agrees: bool) -> Result<(), NoMemory>
    ensures { OnOk result (out.new.items ≡ out.old.items ++ cost_lines cost stated agrees) }
{
    put(out, b"feasible yes\ncost ")?;
    put_fraction(out, cost)?;
    put(out, b"\nstated ")?;
    put_fraction(out, stated)?;
    put(out, b"\nagree ")?;
    put_yes_or_no(out, agrees)?;
    put(out, b"\n")
}

fn is_same(x: i128, y: i128) -> bool
    ensures { IsTrue result ↔ (x ≡ y) }
{
    x == y
}

/// Whether two fractions in lowest terms are the same number.
fn are_equal(a: Frac, b: Frac) -> bool
    requires a { IsLowest a }
    requires b { IsLowest b }
    ensures { IsTrue result ↔ IsSameFraction a b }
{
    is_same(a.num, b.num) && is_same(a.den, b.den)
}

/// Whether the stated cost is that of the feasible schedule.
#[tactic(auto, using(crate::proofs::CheckLemmas::check_rules))]
pub fn states_its_cost(filed: &Filed, stated: &Stated) -> bool
    requires class { InClass filed.now.instance }
    requires stated { IsStated filed.now.names stated.now.schedule stated.now.cost }
    requires feasible { Feasible filed.now.instance stated.now.schedule }
    ensures { IsTrue result ↔ StatesItsCost filed.now.instance stated.now }
{
    are_equal(lowest(stated.cost), cost(&filed.instance, &stated.schedule))
}

/// The lines on a feasible schedule.
#[tactic(auto, using(crate::proofs::CheckLemmas::check_rules))]
fn lines_on_costs(alloc: Global, filed: &Filed, stated: &Stated) -> Result<Vec<u8>, NoMemory>
    requires class { InClass filed.now.instance }
    requires stated { IsStated filed.now.names stated.now.schedule stated.now.cost }
    requires feasible { Feasible filed.now.instance stated.now.schedule }
    ensures { IfOk result (λ lines. AreCostLines filed.now.instance stated.now lines.items) }
{
    let cost = cost(&filed.instance, &stated.schedule);
    let least = lowest(stated.cost);
    let mut lines = Vec::new(alloc);
    put_costs(&mut lines, cost, least, are_equal(least, cost))?;
    Ok(lines)
}

fn lines_on_break(alloc: Global, names: &Names, broken: Break) -> Result<Vec<u8>, NoMemory>
    ensures { IfOk result (λ lines. lines.items ≡ broken_lines names.now broken) }
{
    let mut lines = Vec::new(alloc);
    put_broken(&mut lines, names, broken)?;
    Ok(lines)
}

fn check_lines(
    alloc: Global,
    filed: &Filed,
    stated: &Stated,
    broken: Option<Break>,
) -> Result<Vec<u8>, NoMemory>
    requires class { InClass filed.now.instance }
    requires stated { IsStated filed.now.names stated.now.schedule stated.now.cost }
    requires feasible { IsNone broken → Feasible filed.now.instance stated.now.schedule }
    ensures { IfOk result (λ lines. AreCheckLines filed.now stated.now broken lines.items) }
{
    match broken {
        Some(broken) => lines_on_break(alloc, &filed.names, broken),
        None => lines_on_costs(alloc, filed, stated),
    }
}

/// The report of `check` for the schedule of an instance, with its first break. Where there is none it is feasible.
pub fn check_text(
    alloc: Global,
    filed: &Filed,
    stated: &Stated,
    broken: Option<Break>,
) -> Result<Vec<u8>, NoMemory>
    requires class { InClass filed.now.instance }
    requires stated { IsStated filed.now.names stated.now.schedule stated.now.cost }
    requires feasible { IsNone broken → Feasible filed.now.instance stated.now.schedule }
    ensures { IfOk result (λ text. IsCheckText filed.now stated.now broken text.items) }
{
    let lines = check_lines(alloc, filed, stated, broken)?;
    let mut text = Vec::new(alloc);
    put_counts(&mut text, &filed.instance, &stated.schedule)?;
    put(&mut text, &lines)?;
    put(&mut text, b"end\n")?;
    Ok(text)
}
