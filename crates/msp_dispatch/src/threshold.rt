// The search over thresholds that stands in the list: bounds on the greatest lateness are asked of the solver of weighted late unit jobs.
use msp_plain::Row14;
use msp_route::Via;
use msp_threshold::{LATE_COUNT_CLASS, Search};
use msp_total::SlotsCount;

/// The search, over the solver of weighted late jobs behind the row that gives all jobs the weight 1. No instance is too large for it.
pub(crate) fn threshold_search() -> Search<Via<Row14, SlotsCount>> {
    Search {
        inner: Via {
            from: LATE_COUNT_CLASS,
            first: Row14,
            second: SlotsCount,
        },
    }
}
