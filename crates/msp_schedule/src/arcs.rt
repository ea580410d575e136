// Arcs by the last end and the first beginning of each job.
ghost use Rattle.std.specs.Prelude.{◌≡◌, ℕ, ◌<◌, ◌≤◌, ◌↔◌, pos, ◌≤ℤ◌, length, All, slice_index_or, slice_set, IsTrue, IsNone, IfSome};
ghost use Rattle.std.specs.Int.{int_min};
ghost use Rattle.msp_class.specs.declared.sizes.TheConstants.{MOST_JOBS, MOST_ARCS};
ghost use Rattle.msp_pieces.specs.declared.limits.TheConstants.{GREATEST_MOMENT};
ghost use Rattle.msp_pieces.specs.Within.{IsMoment};
ghost use Rattle.msp_schedule.specs.Breaks.{KeepsArc, IsFirstLostArc};
ghost use Rattle.msp_schedule.specs.Begins.{AreBegins};

use msp_instance::{Arc, MOST_JOBS};
use msp_pieces::{GREATEST_MOMENT, Piece, ends_of};

fn lower(begins: &mut [i128], piece: &Piece)
    requires { piece.now.job < length begins.old }
    ensures { begins.new ≡ slice_set begins.old piece.now.job (int_min (slice_index_or begins.old piece.now.job (pos 0)) piece.now.from) }
{
    let at = piece.job as usize;
    if piece.from < begins[at] {
        begins[at] = piece.from;
    }
}

fn no_begins() -> [i128; MOST_JOBS]
    ensures { (j : ℕ) → j < MOST_JOBS → slice_index_or result j (pos 0) ≡ GREATEST_MOMENT }
{
    [GREATEST_MOMENT; MOST_JOBS]
}

/// The first beginning of each job, by number, and the greatest moment where a job has no piece.
fn begins_of(pieces: &[Piece]) -> [i128; MOST_JOBS]
    requires jobs { All (λ p. p.job < MOST_JOBS) pieces.now }
    ensures { AreBegins result pieces.now }
{
    let mut begins = no_begins();
    for piece in pieces {
        lower(&mut begins, piece);
    }
    begins
}

/// Whether the job before ends no later than the job after begins.
fn is_kept(ends: &[i128], begins: &[i128], arc: Arc) -> bool
    requires before { arc.before < length ends.now }
    requires after { arc.after < length begins.now }
    ensures { IsTrue result ↔ (slice_index_or ends.now arc.before (pos 0) ≤ℤ slice_index_or begins.now arc.after (pos 0)) }
{
    ends[arc.before as usize] <= begins[arc.after as usize]
}

/// The first arc whose job before ends after its job after begins.
pub(crate) fn swept_arc(pieces: &[Piece], arcs: &[Arc]) -> Option<u32>
    requires few { length arcs.now ≤ MOST_ARCS }
    requires ends { All (λ a. (a.before < MOST_JOBS) × (a.after < MOST_JOBS)) arcs.now }
    requires jobs { All (λ p. p.job < MOST_JOBS) pieces.now }
    requires moments { All (λ p. IsMoment p.from × IsMoment p.to) pieces.now }
    ensures none { IsNone result → All (KeepsArc pieces.now) arcs.now }
    ensures some { IfSome result (λ k. IsFirstLostArc pieces.now arcs.now k) }
{
    let ends = ends_of(pieces);
    let begins = begins_of(pieces);
    for at in 0..arcs.len() {
        if !is_kept(&ends, &begins, arcs[at]) {
            return Some(at as u32);
        }
    }
    None
}
