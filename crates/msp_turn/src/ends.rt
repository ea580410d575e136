// The jobs in the order in which a schedule ends them.
ghost use Rattle.std.specs.Prelude.{◌≡◌, ◌<◌, ◌≤◌, length, map, pos, ◌≤ℤ◌, All, AllPairs, IfOk, IsPermutation};
ghost use Rattle.std.specs.List.{range_with_len};
ghost use Rattle.std.specs.Ordering.{int_cmp, nat_cmp, ordering_then};
ghost use Rattle.msp_pieces.specs.Cost.{last_end};
ghost use Rattle.msp_turn.specs.declared.ends.End.{End as EndOf};
ghost use Rattle.msp_turn.specs.Ends.{ends_at, raised_to, EndsRise};

use msp_class::NoMemory;
use msp_pieces::{Piece, Schedule};
use std::alloc::Global;
use std::cmp::Ordering;

/// When a job ends.
#[derive(Clone, Copy)]
struct End {
    moment: i128,
    job: u32,
}

/// The ends of the jobs of no pieces.
fn no_ends(alloc: Global, count: u32) -> Result<Vec<End>, NoMemory>
    ensures { IfOk result (λ ends. ends.items ≡ ends_at (λ _. pos 0) count) }
{
    Ok((0..count).map(|job| End { moment: 0, job }).collect(alloc)?)
}

fn raise(ends: &mut [End], piece: &Piece)
    requires { piece.now.job < length ends.old }
    ensures { (d : EndOf) → ends.new ≡ raised_to piece.now.to piece.now.job ends.old d }
{
    let end = &mut ends[piece.job as usize];
    end.moment = end.moment.max(piece.to);
}

/// The end of each job, by number, and 0 where a job has no piece.
fn ends_of(alloc: Global, count: u32, pieces: &[Piece]) -> Result<Vec<End>, NoMemory>
    requires { All (λ p. p.job < count) pieces.now }
    ensures { IfOk result (λ ends. ends.items ≡ ends_at (last_end pieces.now) count) }
{
    let mut ends = no_ends(alloc, count)?;
    let slice = ends.as_mut_slice();
    for piece in pieces {
        raise(slice, piece);
    }
    Ok(ends)
}

/// Whether `a` is before `b`: by its moment, and then by its number.
fn compare(a: &End, b: &End) -> Ordering
    ensures { result ≡ ordering_then (int_cmp a.now.moment b.now.moment) (nat_cmp a.now.job b.now.job) }
{
    a.moment.cmp(&b.moment).then(a.job.cmp(&b.job))
}

fn sort(ends: &mut Vec<End>)
    ensures permutation { IsPermutation ends.old.items ends.new.items }
    ensures sorted { AllPairs (λ a b. a.moment ≤ℤ b.moment) ends.new.items }
{
    ends.sort_unstable_by(|a, b| compare(a, b));
}

fn numbers_of(alloc: Global, ends: &[End]) -> Result<Vec<u32>, NoMemory>
    ensures { IfOk result (λ numbers. numbers.items ≡ map (λ e. e.job) ends.now) }
{
    Ok(ends.iter().map(|end| end.job).collect(alloc)?)
}

/// The numbers of the jobs in the order of their ends, ties by number.
pub(crate) fn order_of_ends(
    alloc: Global,
    count: u32,
    schedule: &Schedule,
) -> Result<Vec<u32>, NoMemory>
    requires { All (λ p. p.job < count) schedule.now.pieces }
    ensures all { IfOk result (λ order. IsPermutation (range_with_len 0 count) order.items) }
    ensures sorted { IfOk result (λ order. EndsRise schedule.now order.items) }
{
    let mut ends = ends_of(alloc, count, schedule.pieces.as_slice())?;
    sort(&mut ends);
    numbers_of(alloc, &ends)
}
