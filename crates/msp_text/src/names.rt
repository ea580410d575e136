// The names of the jobs of an instance.
ghost use Rattle.std.specs.Prelude.{◌≡◌, ◌<◌, ◌++◌, ◌∷◌, [], length, slice_get, All, Contains, MatchBool, MatchOption, IfOk, OnOk, OnErr, IfSome, Some, bytes_eq, position};
ghost use Rattle.std.specs.List.{list_any};
ghost use Rattle.indexmap.specs.IndexSet.{insert_key};
ghost use Rattle.msp_text.specs.JobName.{AreDistinct, IsJobName};

use crate::job_name::{JobName, LONGEST_NAME};
use crate::padded::Padded;
use indexmap::IndexSet;
use msp_class::{List, NoMemory};
use std::alloc::Global;
use std::marker::Model;

/// The names of the jobs of an instance, in order. Contracts see it as a list of distinct job names.
#[derive(Drop)]
pub struct Names {
    set: IndexSet<Padded>,
}

impl Model for Names {
    ghost use Rattle.std.specs.Prelude.{ℕ, List};

    ghost Value = { List (List ℕ) };

    ghost use Rattle.std.specs.Prelude.{All};
    ghost use Rattle.msp_text.specs.JobName.{IsJobName};

    ghost view = { λ n. n.set.keys };

    ghost invariant = { λ n. All IsJobName n.set.keys };
}

impl Names {
    /// No names.
    pub fn new(alloc: Global) -> Names
        ensures { result ≡ [] }
    {
        Names {
            set: IndexSet::new(alloc),
        }
    }

    /// Puts a name at the end, where it does not stand yet, and answers whether it did so.
    pub fn add(&mut self, name: JobName) -> Result<bool, NoMemory>
        ensures added { IfOk result (λ b. MatchBool b ((¬ Contains self.old name) × (self.new ≡ self.old ++ name ∷ [])) (Contains self.old name × (self.new ≡ self.old))) }
        ensures keys { OnOk result (self.new ≡ insert_key bytes_eq self.old name) }
        ensures refused { OnErr result (self.new ≡ self.old) }
    {
        let Ok(added) = self.set.insert(name.text) else {
            return Err(NoMemory);
        };
        Ok(added)
    }

    /// The same names in the same order. None comes exactly where a name stands twice.
    #[tactic(auto, using(crate::proofs::NameLists::gather_rules))]
    pub fn gather(alloc: Global, names: &List<JobName>) -> Result<Option<Names>, NoMemory>
        ensures { IfOk result (λ gathered. MatchOption gathered (¬ AreDistinct names.now) (λ n. (n ≡ names.now) × AreDistinct names.now)) }
    {
        let mut gathered = Names::new(alloc);
        let items = names.as_slice();
        for name in items {
            if !gathered.add(*name)? {
                return Ok(None);
            }
        }
        Ok(Some(gathered))
    }

    /// How many names there are.
    #[tactic(auto, using(crate::proofs::NameLists::distinct))]
    pub fn len(&self) -> usize
        ensures value { result ≡ length self.now }
        ensures distinct { AreDistinct self.now }
        ensures names { All IsJobName self.now }
    {
        self.set.len()
    }

    /// The name at a place, from 0. None comes exactly from the length on.
    pub fn get(&self, at: usize) -> Option<JobName>
        ensures { result ≡ slice_get self.now at }
    {
        match self.set.get_index(at) {
            Some(text) => Some(JobName { text: *text }),
            None => None,
        }
    }

    /// Whether the name is there.
    pub fn contains(&self, name: &JobName) -> bool
        ensures { result ≡ list_any (bytes_eq name.now) self.now }
    {
        self.set.contains(&name.text)
    }

    /// The place of a name, from 0. None comes exactly where the name is not there.
    pub fn place(&self, name: &JobName) -> Option<usize>
        ensures place { MatchOption result (¬ Contains self.now name.now) (λ at. slice_get self.now at ≡ Some name.now) }
        ensures value { result ≡ position (bytes_eq name.now) self.now }
    {
        self.set.get_index_of(&name.text)
    }

    /// The place of the name of these bytes, from 0, whatever the bytes are. None comes exactly where no name has them.
    #[tactic(auto, using(crate::proofs::NameLists::place_rules))]
    pub fn place_of(&self, bytes: &[u8]) -> Option<usize>
        ensures name { IfSome result (λ at. IsJobName bytes.now) }
        ensures value { result ≡ position (bytes_eq bytes.now) self.now }
    {
        let set = &self.set;
        if bytes.len() > LONGEST_NAME {
            return None;
        }
        set.get_index_of(&Padded::new(bytes))
    }
}
