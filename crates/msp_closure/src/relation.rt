// A relation between classes, as a bit for each two of them.
ghost use Rattle.std.specs.Prelude.{◌≡◌, ◌+◌, ◌*◌, ◌/◌, ◌%◌, ◌⊎◌, ◌<◌, ◌≤◌, ℕ, true, false, IfOk, IfSome, IfNone, bit_or, length, slice_index, slice_set};
ghost use Rattle.std.specs.Int.{bit_at};
ghost use Rattle.msp_class.specs.declared.class.Class.{Class};
ghost use Rattle.msp_class.specs.Rank.{rank_of};
ghost use Rattle.msp_closure.specs.Relation.{relates, Rises, JoinsWords, Joins};

use crate::class_table::{class_at, filled};
use msp_class::{CLASSES, Class, NoMemory, rank};
use std::alloc::Global;
use std::marker::Model;

/// How many words have a bit for each class.
pub(crate) const WIDTH: usize = (CLASSES as usize + 63) / 64;

/// A relation between classes: for each class a row of bits, one for each class. Contracts see it as the list of its words.
#[derive(Drop)]
pub(crate) struct Relation {
    words: Vec<u64>,
}

impl Model for Relation {
    ghost use Rattle.std.specs.Prelude.{ℕ, List, length, ◌≡◌, ◌*◌};
    ghost use Rattle.msp_class.specs.declared.ranks.TheConstants.{CLASSES};
    ghost use Rattle.msp_closure.specs.declared.relation.TheConstants.{WIDTH};

    ghost Value = { List ℕ };

    ghost view = { λ r. r.words.items };

    ghost invariant = { λ r. length r.words.items ≡ CLASSES * WIDTH };
}

impl Relation {
    /// Each class related to itself alone.
    pub(crate) fn identity(alloc: Global) -> Result<Relation, NoMemory>
        ensures alone { IfOk result (λ r. (a b : Class) → relates r a b ≡ true → a ≡ b) }
        ensures itself { IfOk result (λ r. (a : Class) → relates r a a ≡ true) }
    {
        let mut words = filled(alloc, CLASSES as usize * WIDTH, 0)?;
        for n in 0..CLASSES {
            let c = class_at(n);
            relate(&mut words, c, c);
        }
        Ok(Relation { words })
    }

    /// Whether the first class is related to the second.
    pub(crate) fn relates(&self, a: Class, b: Class) -> bool
        ensures { result ≡ relates self.now a b }
    {
        let word = self.words[place(a, b)];
        word >> (rank(b) % 64) & 1 == 1
    }

    /// The class of the least rank from a rank on to which the given one is related.
    pub(crate) fn next_related(&self, c: Class, from: u16) -> Option<Class>
        ensures related { IfSome result (λ b. relates self.now c b ≡ true) }
        ensures from { IfSome result (λ b. from ≤ rank_of b) }
        ensures least { IfSome result (λ b. (x : Class) → from ≤ rank_of x → rank_of x < rank_of b → relates self.now c x ≡ false) }
        ensures none { IfNone result ((x : Class) → from ≤ rank_of x → relates self.now c x ≡ false) }
    {
        let row = rank(c) as usize * WIDTH;
        match next_bit(&self.words, row, from) {
            Some(n) if n < CLASSES => Some(class_at(n)),
            _ => None,
        }
    }

    /// Relates a class to all to which another is related; whether one was new.
    pub(crate) fn join(&mut self, to: Class, from: Class) -> bool
        ensures joins { Joins self.old self.new to from }
        ensures rises { Rises self.old self.new result }
    {
        join_words(&mut self.words, rank(to) as usize, rank(from) as usize)
    }
}

/// The least place of a bit that is set from a place on, in the words of a row that begin at a word.
fn next_bit(words: &[u64], row: usize, from: u16) -> Option<u16>
    requires inside { row + WIDTH ≤ length words.now }
    ensures set { IfSome result (λ n. bit_at (slice_index words.now (row + n / 64)) (n % 64) ≡ 1) }
    ensures from { IfSome result (λ n. from ≤ n) }
    ensures least { IfSome result (λ n. (k : ℕ) → from ≤ k → k < n → bit_at (slice_index words.now (row + k / 64)) (k % 64) ≡ 0) }
    ensures none { IfNone result ((k : ℕ) → from ≤ k → k < WIDTH * 64 → bit_at (slice_index words.now (row + k / 64)) (k % 64) ≡ 0) }
{
    for k in from / 64..WIDTH as u16 {
        let low = if k == from / 64 { from % 64 } else { 0 };
        if let Some(bit) = lowest_bit(words[row + k as usize], low) {
            return Some(k * 64 + bit);
        }
    }
    None
}

/// The place of the lowest bit of a word that is set, from a place on.
fn lowest_bit(word: u64, from: u16) -> Option<u16>
    requires { from < 64 }
    ensures inside { IfSome result (λ n. n < 64) }
    ensures set { IfSome result (λ n. bit_at word n ≡ 1) }
    ensures from { IfSome result (λ n. from ≤ n) }
    ensures least { IfSome result (λ n. (k : ℕ) → from ≤ k → k < n → bit_at word k ≡ 0) }
    ensures none { IfNone result ((k : ℕ) → from ≤ k → k < 64 → bit_at word k ≡ 0) }
{
    let rest = word >> from;
    if rest == 0 {
        None
    } else {
        Some(from + rest.trailing_zeros() as u16)
    }
}

/// The place of the word that has the bit of the second class in the row of the first.
fn place(a: Class, b: Class) -> usize
    ensures place { result ≡ rank_of a * WIDTH + rank_of b / 64 }
    ensures below { result < CLASSES * WIDTH }
{
    rank(a) as usize * WIDTH + rank(b) as usize / 64
}

/// Relates one class to another.
fn relate(words: &mut [u64], a: Class, b: Class)
    requires { length words.old ≡ CLASSES * WIDTH }
    ensures related { relates words.new a b ≡ true }
    ensures others { (x y : Class) → relates words.new x y ≡ true → (relates words.old x y ≡ true) ⊎ ((x ≡ a) × (y ≡ b)) }
    ensures kept { (x y : Class) → relates words.old x y ≡ true → relates words.new x y ≡ true }
{
    words[place(a, b)] |= 1 << (rank(b) % 64);
}

/// Joins the row of one rank to that of another; whether it had a bit that was new.
fn join_words(words: &mut [u64], to: usize, from: usize) -> bool
    requires len { length words.old ≡ CLASSES * WIDTH }
    requires to_in { to < CLASSES }
    requires from_in { from < CLASSES }
    ensures joins { JoinsWords words.old words.new to from }
    ensures rises { Rises words.old words.new result }
{
    let mut changed = false;
    for k in 0..WIDTH {
        if join_word(words, to * WIDTH + k, from * WIDTH + k) {
            changed = true;
        }
    }
    changed
}

/// Joins one word to another; whether it had a bit that was new.
fn join_word(words: &mut [u64], to: usize, from: usize) -> bool
    requires to_in { to < length words.old }
    requires from_in { from < length words.old }
    ensures written { words.new ≡ slice_set words.old to (bit_or (slice_index words.old to) (slice_index words.old from)) }
    ensures rises { Rises words.old words.new result }
{
    let old = words[to];
    let joined = old | words[from];
    words[to] = joined;
    joined != old
}
