// A value for each class.
ghost use Rattle.std.specs.Prelude.{◌≡◌, ◌<◌, ℕ, slice_index_or, slice_set, IfOk, length};
ghost use Rattle.msp_class.specs.declared.class.Class.{Class};
ghost use Rattle.msp_class.specs.Rank.{rank_of};

use msp_class::{CLASSES, Class, NoMemory, rank, unrank};
use std::alloc::Global;
use std::marker::Model;

/// One value for each class. Contracts see it as the list of these values in order of rank.
#[derive(Drop)]
pub(crate) struct ClassTable<T> {
    values: Vec<T>,
}

impl<T> Model for ClassTable<T> {
    ghost use Rattle.std.specs.Prelude.{List, length, ◌≡◌};
    ghost use Rattle.msp_class.specs.declared.ranks.TheConstants.{CLASSES};

    ghost Value = { List T };

    ghost view = { λ t. t.values.items };

    ghost invariant = { λ t. length t.values.items ≡ CLASSES };
}

impl<T: Copy> ClassTable<T> {
    /// The same value for every class.
    pub(crate) fn new(alloc: Global, value: T) -> Result<ClassTable<T>, NoMemory>
        ensures len { IfOk result (λ t. length t ≡ CLASSES) }
        ensures each { IfOk result (λ t. (c : Class) (d : T) → slice_index_or t (rank_of c) d ≡ value) }
    {
        match filled(alloc, CLASSES as usize, value) {
            Ok(values) => Ok(ClassTable { values }),
            Err(NoMemory) => Err(NoMemory),
        }
    }

    /// The value of a class.
    pub(crate) fn at(&self, c: Class) -> T
        ensures len { length self.now ≡ CLASSES }
        ensures value { (d : T) → slice_index_or self.now (rank_of c) d ≡ result }
    {
        self.at_rank(rank(c))
    }

    /// Gives a class another value.
    pub(crate) fn set(&mut self, c: Class, value: T)
        ensures len { length self.old ≡ CLASSES }
        ensures written { self.new ≡ slice_set self.old (rank_of c) value }
    {
        self.set_rank(rank(c), value);
    }

    /// The value of the class of a rank.
    pub(crate) fn at_rank(&self, n: u16) -> T
        requires { n < CLASSES }
        ensures len { length self.now ≡ CLASSES }
        ensures value { (d : T) → slice_index_or self.now n d ≡ result }
    {
        self.values[n as usize]
    }

    /// Gives the class of a rank another value.
    pub(crate) fn set_rank(&mut self, n: u16, value: T)
        requires { n < CLASSES }
        ensures len { length self.old ≡ CLASSES }
        ensures written { self.new ≡ slice_set self.old n value }
    {
        self.values[n as usize] = value;
    }
}

/// So many copies of a value.
pub(crate) fn filled<T: Copy>(alloc: Global, count: usize, value: T) -> Result<Vec<T>, NoMemory>
    ensures len { IfOk result (λ v. length v.items ≡ count) }
    ensures each { IfOk result (λ v. (k : ℕ) (d : T) → k < count → slice_index_or v.items k d ≡ value) }
{
    let mut values = Vec::new(alloc);
    for _k in 0..count {
        values.push(value)?;
    }
    Ok(values)
}

/// The class of a rank.
pub(crate) fn class_at(n: u16) -> Class
    requires { n < CLASSES }
    ensures { rank_of result ≡ n }
{
    unrank(n).unwrap()
}
