// Jobs laid on machines from moment 0 on, without gaps.
ghost use Rattle.std.specs.Prelude.{◌≡◌, ◌∷◌, ◌++◌, [], ℕ, ◌+◌, ◌<◌, ◌^◌, slice_index_or, IfOk, OnOk};
ghost use Rattle.msp_class.specs.declared.sizes.TheConstants.{MOST_MACHINES};
ghost use Rattle.msp_total.specs.Places.{ArePlaces, time_on, laid, piece_until};

use msp_class::{List, NoMemory};
use msp_instance::MOST_MACHINES;
use msp_pieces::Piece;
use std::alloc::Global;

const MACHINES: usize = MOST_MACHINES as usize;

/// A job, the machine that runs it, and how long it runs there.
#[derive(Clone, Copy)]
pub struct Place {
    pub job: u32,
    pub machine: u32,
    pub length: u64,
}

fn no_times() -> [u128; MACHINES]
    ensures { (m : ℕ) → m < MOST_MACHINES → slice_index_or result m 0 ≡ 0 }
{
    [0; MACHINES]
}

/// How long each machine runs the jobs.
fn times_on(places: &[Place]) -> [u128; MACHINES]
    requires { ArePlaces places.now }
    ensures { (m : ℕ) → m < MOST_MACHINES → slice_index_or result m 0 ≡ time_on m places.now }
{
    let mut times = no_times();
    for place in places {
        times[place.machine as usize] += u128::from(place.length);
    }
    times
}

/// Puts the piece of a job that ends at the moment.
fn put(pieces: &mut List<Piece>, place: Place, begin: u128, end: u128) -> Result<(), NoMemory>
    requires begin { begin + place.length ≡ end }
    requires end { end < 2 ^ 127 }
    ensures { OnOk result (pieces.new ≡ pieces.old ++ piece_until end place ∷ []) }
{
    let piece = Piece {
        job: place.job,
        op: 0,
        machine: place.machine,
        from: begin as i128,
        to: end as i128,
    };
    pieces.put(piece)
}

/// The pieces of the jobs, each run as soon as those that stand after it on its machine are done.
pub fn lay(alloc: Global, places: &[Place]) -> Result<List<Piece>, NoMemory>
    requires { ArePlaces places.now }
    ensures { IfOk result (λ pieces. pieces ≡ laid places.now) }
{
    let mut pieces = List::new(alloc);
    let mut left = times_on(places);
    for place in places {
        let end = left[place.machine as usize];
        let begin = end - u128::from(place.length);
        put(&mut pieces, *place, begin, end)?;
        left[place.machine as usize] = begin;
    }
    Ok(pieces)
}
