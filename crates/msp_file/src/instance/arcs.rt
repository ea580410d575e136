// The arcs of an instance, as far as they are read.
ghost use Rattle.std.specs.Prelude.{◌≡◌, ℕ, ◌+◌, ◌*◌, ◌<◌, ◌≤◌, ◌++◌, ◌∷◌, [], true, false, length, IfOk, OnOk, MatchBool};
ghost use Rattle.msp_class.specs.declared.sizes.TheConstants.{MOST_JOBS};
ghost use Rattle.msp_file.specs.instance.ArcFlags.{is_arc_among, flag_at};

use msp_class::{List, NoMemory};
use msp_instance::{Arc, MOST_JOBS};
use std::alloc::Global;
use std::marker::Model;

/// The arcs read so far, in order. An arc is looked up by a flag for its two jobs. Contracts see them as a list.
#[derive(Drop)]
pub(crate) struct Arcs {
    list: List<Arc>,
    flags: Vec<bool>,
}

impl Model for Arcs {
    ghost use Rattle.std.specs.Prelude.{List as Items};
    ghost use Rattle.msp_instance.specs.declared.Arc.{Arc as ArcValue};

    ghost Value = { Items ArcValue };

    ghost use Rattle.msp_file.specs.instance.ArcFlags.{AreFlagged};

    ghost view = { λ a. a.list };

    ghost invariant = { λ a. AreFlagged a.list a.flags.items };
}

/// Whether there is a flag at a place.
fn is_flagged(flags: &[bool], place: usize) -> bool
    ensures { result ≡ flag_at flags.now place }
{
    match flags.get(place) {
        Some(flag) => *flag,
        None => false,
    }
}

/// Makes room for the flags of a job's arcs, as far as there is none, and flags none of them.
fn make_room(flags: &mut Vec<bool>, job: usize) -> Result<(), NoMemory>
    requires { job < MOST_JOBS }
    ensures room { OnOk result ((job + 1) * MOST_JOBS ≤ length flags.new.items) }
    ensures same { (place : ℕ) → flag_at flags.new.items place ≡ flag_at flags.old.items place }
{
    let wanted = (job + 1) * MOST_JOBS;
    if flags.len() < wanted {
        flags.resize(wanted, false)?;
    }
    Ok(())
}

impl Arcs {
    /// No arcs.
    pub(crate) fn new(alloc: Global) -> Arcs
        ensures { result ≡ [] }
    {
        Arcs {
            list: List::new(alloc),
            flags: Vec::new(alloc),
        }
    }

    pub(crate) fn len(&self) -> usize
        ensures { result ≡ length self.now }
    {
        self.list.len()
    }

    /// Puts an arc at the end, where it does not stand yet, and answers whether it did so.
    pub(crate) fn add(&mut self, arc: Arc) -> Result<bool, NoMemory>
        requires before { arc.before < MOST_JOBS }
        requires after { arc.after < MOST_JOBS }
        ensures { IfOk result (λ b. MatchBool b ((is_arc_among self.old arc.before arc.after ≡ false) × (self.new ≡ self.old ++ arc ∷ []))
            ((is_arc_among self.old arc.before arc.after ≡ true) × (self.new ≡ self.old))) }
    {
        let job = arc.before as usize;
        let place = job * MOST_JOBS + arc.after as usize;
        if is_flagged(self.flags.as_slice(), place) {
            return Ok(false);
        }
        make_room(&mut self.flags, job)?;
        self.list.put(arc)?;
        self.flags[place] = true;
        Ok(true)
    }

    /// The arcs as a list.
    pub(crate) fn listed(self) -> List<Arc>
        ensures { result ≡ self }
    {
        let Arcs {
            list,
            flags: _flags,
        } = self;
        list
    }
}
