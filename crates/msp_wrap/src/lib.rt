//! The solver on identical machines, where jobs may be cut: McNaughton's wrap around rule for `P|pmtn|Cmax` (McNaughton 1959).
//!
//! Rule: the least end is the greater of the longest time and the total time over the number of machines; the unit is that number, so it is
//! whole. The jobs in order of number fill the first machine up to the least end, then the next one, and so on; what is left of a job goes
//! on at moment 0 of the next machine.
//!
//! In the loop (`proofs/Steps.antt`): what the machines have done up to the place is what the jobs so far need, all pieces lie before the
//! least end, and those of one machine do not overlap. The two parts of a cut job are apart, since no job is longer than the least end.
//!
//! Best (`proofs/Best.antt`): no job ends before its time is over, and the machines together have no more time than their number times the
//! end (`law_of_ends` of `msp_pieces`).
//!
//! It stands on `msp_pieces` and `msp_route`. The layers above use the clauses of `Solver`: the answers are best; and that of `Wrap`:
//! the cost is the greater of the longest time and the total time over the number of machines.
#![tactic(auto)]

mod wrap;

pub use wrap::Wrap;
