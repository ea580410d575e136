//! Identical machines with preemption, and the greatest lateness.
//!
//! The jobs are laid by due date, for a bound on the lateness, on the stairs of the machines by falling ends (Horn 1974; Sahni 1979). A job
//! that ends by its deadline on the first machine runs there. Else it runs on the last machine on which it does not, up to its deadline, and
//! on the next one for the rest; the former comes to the front. The least bound for which all jobs end in time is found by halving
//! (`least_in` of `msp_route`), over the number of machines, where all numbers are whole. Then, for this bound, so is the least end: a
//! deadline is a due date and the bound together, or the end where that comes first. These deadlines rise with the due dates, too, and the
//! rule asks for no more.
//!
//! What stays true: for each number l some of the jobs laid take at least as long as all machines but the first l are busy and the l greatest
//! deadlines among them together (`AreBacked` in `specs/Steps.antt`). So where a job fits on no machine, some jobs take longer than their m
//! greatest deadlines for m machines (`found_late` in `proofs/Climbing.antt`), and by the law of last ends of `msp_pieces` no schedule
//! does better: up to the m-th last end of these jobs the machines have that much time each, and behind it each of the last m only its end
//! (`proofs/Forced.antt`). By the same law no schedule that costs no more ends by an end that cannot be met (`proofs/Ends.antt`).
//!
//! It stands on `msp_pieces` and `msp_route`. The layers above use the clauses of `Solver`: the answers are best; and what they cost, and
//! that none that costs no more ends a whole part sooner.
#![tactic(auto)]

mod climb;
mod search;
mod stairs;

pub use stairs::Stairs;
