// The printer of schedule texts.
ghost use Rattle.std.specs.Prelude.{◌≡◌, ◌+◌, ◌++◌, OnOk, OnErr, IfOk, decimal};
ghost use Rattle.std.specs.Fmt.{signed_decimal};
ghost use Rattle.msp_pieces.specs.Fraction.{IsLowest};
ghost use Rattle.msp_grammar.specs.ScheduleText.{space, line_feed, name_at, fraction_text, piece_line, piece_lines, cost_line, unit_line, schedule_text, IsStated, IsScheduleText};

use msp_class::NoMemory;
use msp_pieces::{Frac, Piece, Schedule, Solution};
use msp_text::{Names, Part, put, put_all, put_integer};
use std::alloc::Global;

/// Puts the name of the job of a number, from 0.
pub fn put_name(out: &mut Vec<u8>, names: &Names, job: u32) -> Result<(), NoMemory>
    ensures added { OnOk result (out.new.items ≡ out.old.items ++ name_at names.now job) }
    ensures refused { OnErr result (out.new.items ≡ out.old.items) }
{
    match names.get(job as usize) {
        Some(name) => put(out, name.bytes()),
        None => Ok(()),
    }
}

/// Puts a fraction: its numerator and, where it is not 1, its denominator.
pub fn put_fraction(out: &mut Vec<u8>, fraction: Frac) -> Result<(), NoMemory>
    ensures added { OnOk result (out.new.items ≡ out.old.items ++ fraction_text fraction) }
    ensures refused { OnErr result (out.new.items ≡ out.old.items) }
{
    if fraction.den == 1 {
        return put_integer(out, fraction.num);
    }
    let parts = [
        Part::Integer(fraction.num),
        Part::Text(b"/"),
        Part::Integer(fraction.den),
    ];
    put_all(out, &parts)
}

fn put_place(out: &mut Vec<u8>, names: &Names, piece: Piece) -> Result<(), NoMemory>
    ensures { OnOk result (out.new.items ≡ out.old.items ++ (name_at names.now piece.job ++ space ++ decimal (piece.op + 1) ++ space ++ decimal (piece.machine + 1) ++ space)) }
{
    put_name(out, names, piece.job)?;
    let parts = [
        Part::Text(b" "),
        Part::Number(piece.op as u64 + 1),
        Part::Text(b" "),
        Part::Number(piece.machine as u64 + 1),
        Part::Text(b" "),
    ];
    put_all(out, &parts)
}

fn put_span(out: &mut Vec<u8>, piece: Piece) -> Result<(), NoMemory>
    ensures { OnOk result (out.new.items ≡ out.old.items ++ (signed_decimal piece.from ++ space ++ signed_decimal piece.to ++ line_feed)) }
{
    let parts = [
        Part::Integer(piece.from),
        Part::Text(b" "),
        Part::Integer(piece.to),
        Part::Text(b"\n"),
    ];
    put_all(out, &parts)
}

#[tactic(auto, unfolding(crate::specs::ScheduleText::piece_line))]
fn put_piece(out: &mut Vec<u8>, names: &Names, piece: Piece) -> Result<(), NoMemory>
    ensures { OnOk result (out.new.items ≡ out.old.items ++ piece_line names.now piece) }
{
    put(out, b"piece ")?;
    put_place(out, names, piece)?;
    put_span(out, piece)
}

fn put_pieces(out: &mut Vec<u8>, names: &Names, pieces: &[Piece]) -> Result<(), NoMemory>
    ensures { OnOk result (out.new.items ≡ out.old.items ++ piece_lines names.now pieces.now) }
{
    for piece in pieces {
        put_piece(out, names, *piece)?;
    }
    Ok(())
}

#[tactic(auto, unfolding(crate::specs::ScheduleText::cost_line))]
fn put_cost(out: &mut Vec<u8>, cost: Frac) -> Result<(), NoMemory>
    ensures { OnOk result (out.new.items ≡ out.old.items ++ cost_line (fraction_text cost)) }
{
    put(out, b"cost ")?;
    put_fraction(out, cost)?;
    put(out, b"\n")
}

#[tactic(auto, unfolding(crate::specs::ScheduleText::unit_line))]
fn put_unit(out: &mut Vec<u8>, unit: i128) -> Result<(), NoMemory>
    ensures { OnOk result (out.new.items ≡ out.old.items ++ unit_line unit) }
{
    let parts = [Part::Text(b"unit "), Part::Integer(unit), Part::Text(b"\n")];
    put_all(out, &parts)
}

/// Puts the text of a schedule and its cost.
#[tactic(auto, unfolding(crate::specs::ScheduleText::schedule_text))]
fn put_schedule(
    out: &mut Vec<u8>,
    names: &Names,
    schedule: &Schedule,
    cost: Frac,
) -> Result<(), NoMemory>
    ensures { OnOk result (out.new.items ≡ out.old.items ++ schedule_text names.now schedule.now cost) }
{
    put(out, b"schedule\n")?;
    put_cost(out, cost)?;
    put_unit(out, schedule.unit)?;
    put_pieces(out, names, schedule.pieces.as_slice())?;
    put(out, b"end\n")
}

/// The text of a schedule and its cost.
#[tactic(auto, using(crate::proofs::PrintLemmas::printed))]
pub fn print_schedule(
    alloc: Global,
    names: &Names,
    solution: &Solution,
) -> Result<Vec<u8>, NoMemory>
    requires stated { IsStated names.now solution.now.schedule solution.now.cost }
    requires lowest { IsLowest solution.now.cost }
    ensures text { IfOk result (λ text. text.items ≡ schedule_text names.now solution.now.schedule solution.now.cost) }
    // It is a text of the schedule and its cost.
    ensures again { IfOk result (λ text. IsScheduleText text.items names.now solution.now.schedule solution.now.cost) }
{
    let mut out = Vec::new(alloc);
    put_schedule(&mut out, names, &solution.schedule, solution.cost)?;
    Ok(out)
}
