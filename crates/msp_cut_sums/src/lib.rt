//! Sums of completion times where jobs may be cut on identical machines, and where the operations in open shops take one time.
//!
//! On identical machines the job that is k-th by falling time, from 0, runs on machine k mod m before the jobs that are longer there
//! (`CutSum`, McNaughton 1959); of jobs of one time the heaviest run first, m at a time (`CutWeights`). In open shops m jobs make a
//! block of m slots, the heaviest first, in which they go round the machines (`OpenWeights`, `CutOpenWeights`; Adiri and Amit 1984 for
//! equal weights). No schedule costs less, cut or not, by the law of last ends of `msp_pieces`: up to the m-th last end of some jobs
//! the machines have that much time each, and behind it each of the last m only its own end; so the last m ends are together at
//! least the time of all of these jobs (`proofs/InBlocks.antt`). Without the last m jobs the same holds of the rest, and so on: the k-th
//! by time counts k / m + 1 times.
//!
//! It stands on `msp_pieces` and `msp_route`. The layers above use the clauses of `Solver`: the answers are best; and what they cost.
#![tactic(auto)]

mod blocks;
mod orders;
mod parts;
mod squares;
mod stacks;

pub use blocks::CutWeights;
pub use squares::{CutOpenWeights, OpenWeights};
pub use stacks::CutSum;
