// Schedules of squeezed instances, brought back to the kept moments.
ghost use Rattle.std.specs.Prelude.{◌≡◌, ◌<◌, length, All, pos, ◌≤ℤ◌, IfOk};
ghost use Rattle.msp_threshold.specs.Search.{number_of, piece_back, pieces_back};

use msp_class::{List, NoMemory};
use msp_pieces::{Piece, Schedule};
use std::alloc::Global;

/// The piece for one unit of time from the kept moment whose number is that of its unit of time.
fn piece_back(kept: &[u64], unit: i128, piece: &Piece) -> Piece
    requires unit { pos 1 ≤ℤ unit }
    requires inside { number_of unit piece.now < length kept.now }
    ensures { result ≡ piece_back kept.now unit piece.now }
{
    let number = piece.from.unsigned_abs() / unit.unsigned_abs();
    let moment = i128::from(kept[number as usize]);
    Piece {
        job: piece.job,
        op: 0,
        machine: piece.machine,
        from: moment,
        to: moment + 1,
    }
}

/// The pieces of the schedule, each for one unit of time from a kept moment on.
pub fn pieces_back(
    alloc: Global,
    kept: &[u64],
    schedule: &Schedule,
) -> Result<List<Piece>, NoMemory>
    requires unit { pos 1 ≤ℤ schedule.now.unit }
    requires inside { All (λ p. number_of schedule.now.unit p < length kept.now) schedule.now.pieces }
    ensures { IfOk result (λ pieces. pieces ≡ pieces_back kept.now schedule.now) }
{
    let mut pieces = List::new(alloc);
    for piece in schedule.pieces.as_slice() {
        let next = piece_back(kept, schedule.unit, piece);
        pieces.put(next)?;
    }
    Ok(pieces)
}
