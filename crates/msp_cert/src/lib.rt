//! Certificates of lower bounds: what shows that no feasible schedule costs less, without a solver.
//!
//! It stands on `msp_pieces` alone. The layers above use the definitions `HoldsFor`, `IsValue` and `IsAccepted`, which say when the
//! evidence of a proof holds for an instance, what its value is, and when a certificate is accepted; `accept`, which decides this exactly;
//! `find`, which gives the first of some groups, machines, jobs and levels whose value is just a cost (`IsFound`); and
//! `law_of_certificates`: where a certificate is accepted, no feasible schedule over any unit costs less than its bound.
#![tactic(auto)]

use msp_class::{Class, List};
use msp_pieces::{Frac, Solution};

mod block;
mod group;
mod judge;
mod laws;
mod levels;
mod limits;
mod loads;
mod order;
mod prices;
mod search;
mod segments;
mod shops;
mod true_levels;
mod worth;

pub use judge::accept;
pub use laws::{law_of_certificates, law_of_limits};
pub use limits::{GREATEST_HEAD, GREATEST_PRICE, MOST_ENTRIES};
pub use search::find;

/// What shows a lower bound on the cost of every feasible schedule. Jobs and machines are numbered from 0.
#[derive(Drop)]
pub enum Proof {
    /// Some jobs: the fastest machines that they can use need the time for them.
    Group { jobs: List<u32> },
    /// A machine of a shop: it needs the time for its operations.
    Machine { machine: u32 },
    /// A job of a shop: it needs the time for its operations.
    Line { job: u32 },
    /// A level for each job, no more than the length of a path that leaves it: jobs of at least the level `tail` end so many units before
    /// the last job ends.
    Levels { level: List<u32>, tail: u32 },
    /// Lists of jobs, each of which is done only after the one before it.
    Segments { lists: List<List<u32>> },
    /// A moment for each job before which it cannot begin, and some jobs: on one machine one of them ends when all can be done.
    Block { head: List<u64>, jobs: List<u32> },
    /// A price for each job, and for each position on each machine: a job costs at least both prices of the position that it takes.
    Prices { row: List<i128>, column: List<i128> },
}

/// A bound on the cost of every feasible schedule, and what shows it.
#[derive(Drop)]
pub struct Certificate {
    pub bound: Frac,
    pub proof: Proof,
}

/// A solution of an instance of the class, and a certificate of its cost.
#[derive(Drop)]
pub struct Certified {
    pub class: Class,
    pub solution: Solution,
    pub certificate: Certificate,
}
