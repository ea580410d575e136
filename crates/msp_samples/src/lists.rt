// Lists of what may be copied.
ghost use Rattle.std.specs.Prelude.{◌≡◌, map, IfOk};
ghost use Rattle.msp_samples.specs.Samples.{arc_of};

use msp_class::{List, NoMemory};
use msp_instance::Arc;
use std::alloc::Global;

/// A list of the items.
pub fn list_of<T: Copy>(alloc: Global, items: &[T]) -> Result<List<T>, NoMemory>
    ensures { IfOk result (λ list. list ≡ items.now) }
{
    Ok(List::from_vec(Vec::from_slice(alloc, items)?))
}

/// Arcs by pairs: the first job of each is complete when the second begins.
pub(crate) fn arcs(alloc: Global, pairs: &[(u32, u32)]) -> Result<List<Arc>, NoMemory>
    ensures { IfOk result (λ arcs. arcs ≡ map arc_of pairs.now) }
{
    let mut arcs = List::new(alloc);
    for pair in pairs {
        let (before, after) = *pair;
        arcs.put(Arc { before, after })?;
    }
    Ok(arcs)
}
