// A few small numbers in a field of one size.
ghost use Rattle.std.specs.Prelude.{◌≡◌, ◌<◌, ◌≤◌, ◌++◌, ◌∷◌, [], length, remove, replicate, slice_set};
ghost use Rattle.msp_class.specs.declared.sizes.TheConstants.{MOST_MACHINES};
ghost use Rattle.msp_uniform.specs.Segments.{at};

use msp_class::MOST_MACHINES;
use std::marker::Model;

/// So many numbers there may be: one for each machine.
pub(crate) const MACHINES: usize = MOST_MACHINES as usize;

/// Numbers, at most as many as there may be machines. Contracts see them as their list.
#[derive(Drop)]
pub(crate) struct Numbers {
    all: [u16; MACHINES],
    count: usize,
}

impl Model for Numbers {
    ghost use Rattle.std.specs.Prelude.{◌≤◌, ℕ, List, take};
    ghost use Rattle.msp_class.specs.declared.sizes.TheConstants.{MOST_MACHINES};

    ghost Value = { List ℕ };

    ghost view = { λ n. take n.count n.all };

    ghost invariant = { λ n. n.count ≤ MOST_MACHINES };
}

impl Numbers {
    /// The same number, so often.
    pub(crate) fn same(number: u16, count: usize) -> Numbers
        requires { count ≤ MOST_MACHINES }
        ensures { result ≡ replicate count number }
    {
        Numbers {
            all: [number; MACHINES],
            count,
        }
    }

    pub(crate) fn copied(&self) -> Numbers
        ensures { result ≡ self.now }
    {
        Numbers {
            all: self.all,
            count: self.count,
        }
    }

    pub(crate) fn as_slice(&self) -> &[u16]
        ensures value { result.now ≡ self.now }
        ensures few { length self.now ≤ MOST_MACHINES }
    {
        &self.all[..self.count]
    }

    /// The number at a place.
    pub(crate) fn at(&self, place: usize) -> u16
        requires { place < length self.now }
        ensures value { result ≡ at self.now place }
        ensures inside { place < MOST_MACHINES }
    {
        self.as_slice()[place]
    }

    /// Puts a number behind the others.
    pub(crate) fn push(&mut self, number: u16)
        requires { length self.old < MOST_MACHINES }
        ensures { self.new ≡ self.old ++ number ∷ [] }
    {
        self.all[self.count] = number;
        self.count += 1;
    }

    /// Puts a number in the place of another.
    pub(crate) fn set(&mut self, place: usize, number: u16)
        requires { place < length self.old }
        ensures { self.new ≡ slice_set self.old place number }
    {
        let Numbers { all, .. } = self;
        all[place] = number;
    }

    /// Takes the number at a place away.
    pub(crate) fn remove(&mut self, place: usize) -> u16
        requires { place < length self.old }
        ensures value { result ≡ at self.old place }
        ensures others { self.new ≡ remove self.old place }
    {
        let count = self.count;
        let number = self.all[place];
        self.all.copy_within(place + 1..count, place);
        self.count = count - 1;
        number
    }
}
