// Slices of a matrix, laid one after another as pieces of a schedule. Pieces of one operation that touch are joined.
ghost use Rattle.std.specs.Prelude.{◌≡◌, ◌<◌, ◌+◌, ◌++◌, ◌≤ℤ◌, ◌+ℤ◌, ◌≤◌, pos, length, All, IfOk, OnOk, true, false};
ghost use Rattle.msp_class.specs.declared.sizes.TheConstants.{MOST_MACHINES};
ghost use Rattle.msp_timetable.specs.Split.{greatest_sum, total};
ghost use Rattle.msp_shops.specs.Joined.{AreJoined};
ghost use Rattle.msp_shops.specs.Sliced.{row_part, row_parts, laid, Joins, IsEndOf, HasBegun, AreInRows};

use msp_class::{List, NoMemory};
use msp_pieces::Piece;
use msp_timetable::Slice;
use std::alloc::Global;

/// Whether the piece runs the job on the machine, and ends at the moment.
fn is_end_of(piece: &Piece, job: u32, machine: u32, moment: i128) -> bool
    ensures yes { result ≡ true → IsEndOf job machine moment piece.now }
    ensures no { result ≡ false → ¬ IsEndOf job machine moment piece.now }
{
    piece.job == job && piece.op == machine && piece.machine == machine && piece.to == moment
}

/// The pieces laid so far, and the moment at which the next slice begins.
#[derive(Drop)]
struct Row {
    pieces: Vec<Piece>,
    moment: i128,
}

/// When the slice ends.
fn end_of(row: &Row, slice: &Slice) -> i128
    requires begin { pos 0 ≤ℤ row.now.moment }
    requires lasts { pos 1 ≤ℤ slice.now.length }
    requires short { (row.now.moment +ℤ slice.now.length) ≤ℤ pos greatest_sum }
    ensures { result ≡ row.now.moment +ℤ slice.now.length }
{
    row.moment + slice.length
}

/// Where the next piece of a machine begins, which runs the job: the last piece is taken away where it goes on.
fn begin_of(row: &mut Row, job: u32, machine: u32) -> Result<i128, NoMemory>
    ensures begun { IfOk result (λ begin. HasBegun job machine row.old.moment begin row.old.pieces.items row.new.pieces.items) }
    ensures moment { row.new.moment ≡ row.old.moment }
{
    match row.pieces.pop() {
        None => Ok(row.moment),
        Some(last) => {
            if is_end_of(&last, job, machine, row.moment) {
                return Ok(last.from);
            }
            row.pieces.push(last)?;
            Ok(row.moment)
        }
    }
}

/// Puts the piece of a machine in this slice at the end, where it has one.
fn put_piece(row: &mut Row, slice: &Slice, machine: usize, columns: u32) -> Result<(), NoMemory>
    requires inside { machine < length slice.now.column }
    requires few { machine < MOST_MACHINES }
    requires begin { pos 0 ≤ℤ row.old.moment }
    requires lasts { pos 1 ≤ℤ slice.now.length }
    requires short { (row.old.moment +ℤ slice.now.length) ≤ℤ pos greatest_sum }
    requires rows { AreInRows machine row.old.moment row.old.pieces.items }
    ensures joins { OnOk result (Joins (row.old.pieces.items ++ row_part columns row.old.moment slice.now machine) row.new.pieces.items) }
    ensures rows { OnOk result (AreInRows machine (row.old.moment +ℤ slice.now.length) row.new.pieces.items) }
    ensures moment { row.new.moment ≡ row.old.moment }
{
    let job = slice.column.as_slice()[machine];
    if job >= columns {
        return Ok(());
    }
    let from = begin_of(row, job, machine as u32)?;
    let piece = Piece {
        job,
        op: machine as u32,
        machine: machine as u32,
        from,
        to: end_of(row, slice),
    };
    row.pieces.push(piece)?;
    Ok(())
}

/// The same, and goes on to the next slice.
fn put_part(row: &mut Row, slice: &Slice, machine: usize, columns: u32) -> Result<(), NoMemory>
    requires inside { machine < length slice.now.column }
    requires few { machine < MOST_MACHINES }
    requires begin { pos 0 ≤ℤ row.old.moment }
    requires lasts { pos 1 ≤ℤ slice.now.length }
    requires short { (row.old.moment +ℤ slice.now.length) ≤ℤ pos greatest_sum }
    requires rows { AreInRows machine row.old.moment row.old.pieces.items }
    ensures joins { OnOk result (Joins (row.old.pieces.items ++ row_part columns row.old.moment slice.now machine) row.new.pieces.items) }
    ensures rows { OnOk result (AreInRows machine row.new.moment row.new.pieces.items) }
    ensures moment { OnOk result (row.new.moment ≡ row.old.moment +ℤ slice.now.length) }
{
    let end = end_of(row, slice);
    put_piece(row, slice, machine, columns)?;
    row.moment = end;
    Ok(())
}

/// Puts the pieces of a machine at the end.
fn put_machine(
    row: &mut Row,
    slices: &[Slice],
    machine: usize,
    columns: u32,
) -> Result<(), NoMemory>
    requires few { machine < MOST_MACHINES }
    requires all { All (λ s. machine < length s.column) slices.now }
    requires lasts { All (λ s. pos 1 ≤ℤ s.length) slices.now }
    requires short { total (λ s. s.length) slices.now ≤ℤ pos greatest_sum }
    requires rows { AreInRows machine (pos 0) row.old.pieces.items }
    ensures joins { OnOk result (Joins (row.old.pieces.items ++ row_parts columns (pos 0) machine slices.now) row.new.pieces.items) }
    ensures rows { OnOk result (AreInRows (machine + 1) (pos 0) row.new.pieces.items) }
{
    row.moment = 0;
    for k in 0..slices.len() {
        put_part(row, &slices[k], machine, columns)?;
    }
    Ok(())
}

/// Lays the slices one after another: the pieces of one machine after those of the other, so that pieces that touch are neighbours.
pub fn lay_slices(
    alloc: Global,
    slices: &[Slice],
    rows: u32,
    columns: u32,
) -> Result<List<Piece>, NoMemory>
    requires few { rows ≤ MOST_MACHINES }
    requires all { All (λ s. length s.column ≡ rows) slices.now }
    requires lasts { All (λ s. pos 1 ≤ℤ s.length) slices.now }
    requires short { total (λ s. s.length) slices.now ≤ℤ pos greatest_sum }
    ensures joins { IfOk result (λ pieces. Joins (laid columns slices.now rows) pieces) }
    ensures joined { IfOk result (λ pieces. AreJoined pieces) }
{
    let mut row = Row {
        pieces: Vec::new(alloc),
        moment: 0,
    };
    for machine in 0..rows as usize {
        put_machine(&mut row, slices, machine, columns)?;
    }
    Ok(List::from_vec(row.pieces))
}
