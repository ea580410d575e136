// A table of what jobs cost in slots, by its data.
ghost use Rattle.std.specs.Prelude.{◌≡◌, ◌<◌, ◌≤◌, length, All};
ghost use Rattle.msp_class.specs.declared.list.TheConstants.{PLACES};
ghost use Rattle.msp_class.specs.declared.sizes.TheConstants.{GREATEST};

use msp_class::List;

/// The costs of jobs in slots, each of which lasts one unit of time: the weight times the time past the due date at the slot's end, or
/// where `late` is false, the weight of a job that ends past its due date.
#[derive(Drop)]
pub struct Slots {
    pub late: bool,
    pub start: List<u64>,
    pub release: List<u64>,
    pub due: List<i64>,
    pub weight: List<u64>,
    ghost dues: { length due ≡ length release },
    ghost weights: { length weight ≡ length release },
    ghost jobs: { length release < PLACES },
    ghost slots: { length start < PLACES },
    ghost light: { All (λ w. w ≤ GREATEST) weight },
}
