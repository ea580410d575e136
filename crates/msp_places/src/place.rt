// Places on machines.
ghost use Rattle.std.specs.Prelude.{◌≡◌};
ghost use Rattle.msp_places.specs.Placed.{piece_in};

use msp_pieces::Piece;

/// A place on a machine: the job of the rank, from 1, of those that follow one another there, and when it begins and ends over a unit.
#[derive(Clone, Copy)]
pub struct Place {
    pub machine: u32,
    pub rank: u32,
    pub begin: u64,
    pub end: u64,
}

/// The piece of the job in the place.
pub(crate) fn piece_in(job: u32, place: &Place) -> Piece
    ensures { result ≡ piece_in job place.now }
{
    Piece {
        job,
        op: 0,
        machine: place.machine,
        from: i128::from(place.begin),
        to: i128::from(place.end),
    }
}
