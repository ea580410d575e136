// Pieces of work.
ghost use Rattle.std.specs.Prelude.{◌≡◌};

use msp_pieces::Piece;

/// A piece of a job of one operation, on the first machine.
pub const fn piece(job: u32, from: i128, to: i128) -> Piece
    ensures { result ≡ record { job = job; op = 0; machine = 0; from = from; to = to } }
{
    Piece {
        job,
        op: 0,
        machine: 0,
        from,
        to,
    }
}
