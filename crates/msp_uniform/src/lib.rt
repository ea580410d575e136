//! The solver on uniform machines with preemption, `Q|pmtn|Cmax` (Gonzalez and Sahni 1978), and the law of the least end.
//!
//! Rule: the least end is the greatest of the total work over the total speed and of the k longest works over the k greatest speeds
//! (`quotient.rt`). Up to it the time is a list of segments (`segments.rt`), parts of the time in each of which every machine has one job
//! or is free, its free machines listed from the fastest to the slowest. A place is a number in these lists: place r has, in each segment,
//! the r-th fastest free machine, and holds what they do together.
//!
//! First the longest jobs, as long as they need more than the last place can do (`turns.rt`): such a job needs a work between those of two
//! places next to each other, takes the faster place up to a moment and the slower one behind it, and leaves one place of the two
//! (`turning.rt` finds the places and the finer unit in which that moment is whole, `filling.rt` takes the turn, `laying.rt` lays the job
//! over one segment after another). The unit is multiplied by the difference of two speeds each time.
//!
//! Then the others, none of which needs more than the last place can do (`tape.rt`): they fill the last place from its begin on, one after
//! another; a job that does not fit goes on from the begin of the place before it, which becomes the last.
//!
//! In both loops (`proofs/PlanFacts.antt`, `PrefixFacts.antt`, `TapedFacts.antt`): each laid job has all its work and one machine at a
//! time; for each k the k longest jobs that are left need no more than the first k places hold, and all of them no more than all places.
//! Segments one after another are then the pieces (`pieces.rt`); `fill.rt` does all of it, and `unit.rt` says whether the unit stays small.
//!
//! Best (`proofs/UniformBest.antt`): no schedule ends before the least end (`proofs/LeastEnd.antt`, from `law_of_speeds` of
//! `msp_pieces`).
//!
//! It stands on `msp_pieces` and `msp_route`. The layers above use the clauses of `Solver`: the answers are best wherever the unit stays
//! small (`fits`); that of `UniformCut`: the cost is the greatest of the total work over the total speed and of the k longest works over
//! the k greatest speeds; and `law_of_least_end`: no feasible schedule ends before any of these.
#![tactic(auto)]

mod fill;
mod filling;
mod laws;
mod laying;
mod numbers;
mod orders;
mod pieces;
mod quotient;
mod segments;
mod tape;
mod task;
mod turning;
mod turns;
mod uniform_cut;
mod unit;

pub use laws::{law_of_least_end, law_of_limits};
pub use uniform_cut::UniformCut;
