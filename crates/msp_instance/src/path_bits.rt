// Between which jobs paths of arcs lead.
ghost use Rattle.std.specs.Prelude.{◌≡◌, ◌≢◌, ℕ, ◌+◌, ◌*◌, ◌/◌, ◌<◌, ◌≤◌, ◌⊎◌, length, false, All, IfOk};
ghost use Rattle.std.specs.List.Sorted.{IsNonDecreasingBy};
ghost use Rattle.msp_class.specs.declared.list.TheConstants.{PLACES};
ghost use Rattle.msp_instance.specs.Conditions.{IsAcyclic};
ghost use Rattle.msp_instance.specs.Bits.{has_bit};
ghost use Rattle.msp_instance.specs.Paths.{ShowsPaths, leads};
ghost use Rattle.msp_instance.specs.PathBits.{JoinsWords, SetsBit, Follows, FollowsAll, IsOrder, HasPathBits};

use crate::arcs::{arcs_by_before, leaving_of};
use crate::sequence::forward;
use crate::{Arc, Instance};
use msp_class::{List, NoMemory};
use std::alloc::{AllocError, Global};

/// Between which jobs paths of arcs lead: the bits of each job, in so many words.
#[derive(Drop)]
pub struct Paths {
    width: u32,
    words: List<u64>,
}

impl Paths {
    /// Finds the paths where they have no cycle, in time linear in the arcs and in the jobs times the jobs and arcs over 64.
    pub fn of(alloc: Global, inst: &Instance) -> Result<Paths, NoMemory>
        requires few { length inst.now.jobs < PLACES }
        requires ends { All (λ a. (a.before < length inst.now.jobs) × (a.after < length inst.now.jobs)) inst.now.arcs }
        requires acyclic { IsAcyclic inst.now }
        ensures { IfOk result (ShowsPaths inst.now) }
    {
        let Ok(order) = forward(alloc, inst) else {
            return Err(NoMemory);
        };
        let sorted = arcs_by_before(alloc, inst.arcs.as_slice())?;
        let width = inst.jobs.len() as u32 / 64 + 1;
        let words = List::from_vec(bits_of_paths(
            alloc,
            width,
            order.as_slice(),
            sorted.as_slice(),
        )?);
        Ok(Paths { width, words })
    }

    /// Whether a path of at least one arc leads from the one job to the other.
    pub fn leads(&self, from: u32, to: u32) -> bool
        ensures { result ≡ leads self.now from to }
    {
        match self.words.get(place(self.width, from, to)) {
            Some(word) => *word >> (to % 64) & 1 == 1,
            None => false,
        }
    }
}

/// The place of the word that has the bit of the second job among those of the first.
fn place(width: u32, from: u32, to: u32) -> usize
    ensures { result ≡ from * width + to / 64 }
{
    from as usize * width as usize + to as usize / 64
}

/// Joins so many words from a place on to those from another place on.
fn join_words(words: &mut [u64], count: usize, to: usize, from: usize)
    requires to { to + count ≤ length words.old }
    requires from { from + count ≤ length words.old }
    requires apart { (to + count ≤ from) ⊎ (from + count ≤ to) }
    ensures { JoinsWords count to from words.old words.new }
{
    for k in 0..count {
        words[to + k] |= words[from + k];
    }
}

/// Sets the bit of the second job among those of the first.
fn set_bit(words: &mut [u64], width: u32, from: u32, to: u32)
    requires inside { from * width + to / 64 < length words.old }
    requires wide { to / 64 < width }
    ensures { SetsBit width from to words.old words.new }
{
    words[place(width, from, to)] |= 1 << (to % 64);
}

/// Sets among the bits of the arc's job before those that its job after has, and this job's.
fn follow(words: &mut [u64], width: u32, arc: Arc)
    requires before { arc.before * width + width ≤ length words.old }
    requires after { arc.after * width + width ≤ length words.old }
    requires wide { arc.after / 64 < width }
    requires apart { arc.before ≢ arc.after }
    ensures { Follows width arc words.old words.new }
{
    let to = place(width, arc.before, 0);
    let from = place(width, arc.after, 0);
    join_words(words, width as usize, to, from);
    set_bit(words, width, arc.before, arc.after);
}

/// The same for each of some arcs.
fn follow_all(words: &mut [u64], width: u32, arcs: &[Arc])
    requires before { All (λ a. a.before * width + width ≤ length words.old) arcs.now }
    requires after { All (λ a. a.after * width + width ≤ length words.old) arcs.now }
    requires wide { All (λ a. a.after / 64 < width) arcs.now }
    requires apart { All (λ a. a.before ≢ a.after) arcs.now }
    ensures { FollowsAll width arcs.now words.old words.new }
{
    for arc in arcs {
        follow(words, width, *arc);
    }
}

/// Sets the bits of all jobs. The last job comes first, so that the bits of the jobs to which its arcs lead are there.
fn fill(words: &mut [u64], width: u32, order: &[u32], sorted: &[Arc])
    requires wide { width ≡ length order.now / 64 + 1 }
    requires sorted { IsNonDecreasingBy (λ a. a.before) sorted.now }
    requires order { IsOrder order.now sorted.now }
    requires len { length words.old ≡ length order.now * width }
    requires none { (j k : ℕ) → has_bit words.old width j k ≡ false }
    ensures { HasPathBits order.now sorted.now width words.new }
{
    for done in 0..order.len() {
        let job = order[order.len() - 1 - done];
        follow_all(words, width, leaving_of(sorted, job));
    }
}

/// The bits of each job, of which each says whether a path leads there.
fn bits_of_paths(
    alloc: Global,
    width: u32,
    order: &[u32],
    sorted: &[Arc],
) -> Result<Vec<u64>, AllocError>
    requires few { length order.now < PLACES }
    requires wide { width ≡ length order.now / 64 + 1 }
    requires sorted { IsNonDecreasingBy (λ a. a.before) sorted.now }
    requires order { IsOrder order.now sorted.now }
    ensures { IfOk result (λ words. HasPathBits order.now sorted.now width words.items) }
{
    let mut words = vec![in alloc; 0; order.len() * width as usize]?;
    fill(&mut words, width, order, sorted);
    Ok(words)
}
