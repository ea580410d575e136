// The classes of a list of known results, by their verdicts.
ghost use Rattle.std.specs.Prelude.{◌≡◌, IfOk};
ghost use Rattle.msp_closure.specs.Entries.{listed, makes};

use crate::entry::{Entry, Verdict};
use msp_class::{Class, List, NoMemory};
use std::alloc::Global;

/// The classes listed with a verdict that makes the claim, in the order of the entries.
pub(crate) fn listed(
    alloc: Global,
    entries: &List<Entry>,
    claim: Verdict,
) -> Result<Vec<Class>, NoMemory>
    ensures { IfOk result (λ classes. classes.items ≡ listed (makes claim) entries.now) }
{
    let classes = entries
        .as_slice()
        .iter()
        .filter(|entry| entry.verdict.makes(claim))
        .map(|entry| entry.class)
        .collect(alloc)?;
    Ok(classes)
}

impl Verdict {
    /// Whether it makes the claim of another: one that is hard in the strong sense is hard.
    pub fn makes(self, claim: Verdict) -> bool
        ensures { result ≡ makes claim self }
    {
        match claim {
            Verdict::Easy => matches!(self, Verdict::Easy),
            Verdict::Pseudo => matches!(self, Verdict::Pseudo),
            Verdict::Hard => matches!(self, Verdict::Hard | Verdict::Strong),
            Verdict::Strong => matches!(self, Verdict::Strong),
        }
    }
}
