//! Coffman and Graham's rule: unit jobs with any precedence on two machines, by lexical labels, for `P2|prec,p=1|Cmax` (Coffman and Graham
//! 1972).
//!
//! Rule: labels are given from 0 up. The next one goes to a job all of whose successors have labels; of these, to the one that leads to the
//! least set of labels, two sets being compared by the greatest label in which they differ. In each slot the two free jobs of greatest
//! labels run, the greater one on the first machine.
//!
//! Segments (`segment.rt`, `proofs/Cuts.antt`): from the last slot back, a segment goes on as long as the second job of a slot has a
//! greater label than the first job of the segment's last slot. From each job of a segment paths lead to each job of the next
//! (`proofs/TwoRows.antt`).
//!
//! Best (`proofs/LexicalBest.antt`): so any schedule runs the segments one after another, each in at least half as many slots as it has
//! jobs, rounded up (`law_of_segments` of `msp_pieces`); and that is the number of slots of the rule. The segments are evidence of the
//! cost.
//!
//! It stands on `msp_pieces`, whose law of segments bounds every feasible schedule from below, on `msp_slots`, by which jobs run in the
//! order of a list, and on `msp_route`. The layers above use the clauses of `Solver`, and `segments`: lists of jobs that show that no
//! schedule is shorter; `solve_with_segments` gives both by one labelling.
#![tactic(auto)]

mod label;
mod links;
mod rule;
mod segment;

pub use rule::Lexical;
pub use segment::{SegmentSolution, segments, solve_with_segments};
