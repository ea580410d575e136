//! The solver that is asked for any instance: by the nearest chain of carrying rows to a class that a solver solves, and back.
//!
//! It stands on `msp_closure` for the chains, on `msp_carry` for the way along them, and on the solvers. The layers above use
//! that an answer is best, and that each fault says exactly what is missing (`solve_any`).
//!
//! With `msp_cert` it certifies costs: `certify_any` gives an instance of one of eight classes a best solution and a certificate whose
//! bound is its cost, with evidence that has just that value (`IsCertified`), and else says whether the class has no certificate or the
//! instance does not fit the solver of its class (`IsUncertified`).
#![tactic(auto)]

ghost use Rattle.std.specs.Prelude.{◌≡◌};

mod by_name;
mod certify;
mod fit;
mod pick;
mod shown;
mod solve;
mod solved_list;
mod threshold;

pub use certify::certify_any;
use msp_class::{Class, NoMemory};
pub use solve::solve_any;
pub use solved_list::{SolvedClass, solved};

/// Why an instance is not solved.
#[derive(Clone, Copy, PartialEq, Eq)]
pub enum Cannot {
    /// No chain of carrying rows leads from the class to one that is solved.
    NoSolver { class: Class },
    /// The class that is asked for is not solved.
    NotSolved { class: Class },
    /// No chain of carrying rows leads from the one class to the other.
    NoRoute { from: Class, to: Class },
    /// The instance that is carried to the class does not fit the solver of that class.
    Unfit { class: Class },
    /// The memory is used up.
    Memory,
}

impl From<NoMemory> for Cannot {
    ghost use Rattle.msp_dispatch.specs.declared.Cannot.TheVariants.{Memory};

    ghost from_gives = { λ _ e. e ≡ Memory };

    fn from(_refusal: NoMemory) -> Cannot {
        Cannot::Memory
    }
}

/// Why an instance gets no certificate.
#[derive(Clone, Copy, PartialEq, Eq)]
pub enum Uncertified {
    /// The class is none of those whose best costs are certified.
    NoCertificate { class: Class },
    /// The instance does not fit the solver of its class.
    Unfit { class: Class },
    /// The memory is used up.
    Memory,
}

impl From<NoMemory> for Uncertified {
    ghost use Rattle.msp_dispatch.specs.declared.Uncertified.TheVariants.{Memory};

    ghost from_gives = { λ _ e. e ≡ Memory };

    fn from(_refusal: NoMemory) -> Uncertified {
        Uncertified::Memory
    }
}
