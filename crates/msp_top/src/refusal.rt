// Why a call gives no report.
ghost use Rattle.std.specs.Prelude.{◌≡◌};
ghost use Rattle.msp_top.specs.Refusals.{of_taken, of_unchecked};
ghost use Rattle.msp_top.specs.Files.{file_status};
ghost use Rattle.msp_top.specs.Cannots.{cannot_status, uncertified_status};
ghost use Rattle.msp_top.specs.Results.{results_status};

use crate::notes::Note;
use crate::statuses::{
    BAD_INPUT, LIMIT, NO_MEMORY, NO_ROUTE, NO_SOLVER, READ_FAULT, USAGE, WRITE_FAULT,
};
use crate::words::Misfit;
use msp_class::{Class, NoMemory};
use msp_dispatch::{Cannot, Uncertified};
use msp_grammar::FileFault;
use msp_io::{Taken, WriteFault};
use msp_results::ResultFault;

/// The status of a call that gives no report, and the note to be told.
#[derive(Clone, Copy)]
pub struct Refusal {
    pub status: u8,
    pub note: Note,
}

impl From<Misfit> for Refusal {
    ghost use Rattle.msp_top.specs.Refusals.{of_misfit};

    ghost from_gives = { λ misfit refusal. refusal ≡ of_misfit misfit };

    fn from(misfit: Misfit) -> Refusal {
        Refusal {
            status: USAGE,
            note: Note::Usage(misfit),
        }
    }
}

impl From<NoMemory> for Refusal {
    ghost use Rattle.msp_top.specs.Refusals.{out_of_memory};

    ghost from_gives = { λ _ refusal. refusal ≡ out_of_memory };

    fn from(_: NoMemory) -> Refusal {
        Refusal {
            status: NO_MEMORY,
            note: Note::OutOfMemory,
        }
    }
}

impl From<WriteFault> for Refusal {
    ghost use Rattle.msp_top.specs.Refusals.{of_write_fault};

    ghost from_gives = { λ _ refusal. refusal ≡ of_write_fault };

    fn from(_: WriteFault) -> Refusal {
        Refusal {
            status: WRITE_FAULT,
            note: Note::CannotWrite,
        }
    }
}

impl From<FileFault> for Refusal {
    ghost use Rattle.msp_top.specs.Refusals.{of_file_fault};

    ghost from_gives = { λ fault refusal. refusal ≡ of_file_fault fault };

    fn from(fault: FileFault) -> Refusal {
        Refusal {
            status: file_status(&fault),
            note: Note::File(fault),
        }
    }
}

impl From<Cannot> for Refusal {
    ghost use Rattle.msp_top.specs.Refusals.{of_cannot};

    ghost from_gives = { λ cannot refusal. refusal ≡ of_cannot cannot };

    fn from(cannot: Cannot) -> Refusal {
        Refusal {
            status: cannot_status(cannot),
            note: Note::Unsolved(cannot),
        }
    }
}

impl From<Uncertified> for Refusal {
    ghost use Rattle.msp_top.specs.Refusals.{of_uncertified};

    ghost from_gives = { λ why refusal. refusal ≡ of_uncertified why };

    fn from(why: Uncertified) -> Refusal {
        Refusal {
            status: uncertified_status(why),
            note: Note::Uncertified(why),
        }
    }
}

impl From<ResultFault> for Refusal {
    ghost use Rattle.msp_top.specs.Refusals.{of_result_fault};

    ghost from_gives = { λ fault refusal. refusal ≡ of_result_fault fault };

    fn from(fault: ResultFault) -> Refusal {
        Refusal {
            status: results_status(fault),
            note: Note::Results(fault),
        }
    }
}

/// The refusal of an input that was not taken whole, and that may have so many bytes.
pub fn not_taken(why: Taken, limit: u64) -> Refusal
    ensures { result ≡ of_taken limit why }
{
    match why {
        Taken::ReadFault => Refusal {
            status: READ_FAULT,
            note: Note::CannotRead,
        },
        Taken::TooLong => Refusal {
            status: LIMIT,
            note: Note::TooLong { limit },
        },
        Taken::Memory => Refusal::from(NoMemory),
    }
}

/// The refusal of a class whose schedules are not checked.
pub fn unchecked(class: Class) -> Refusal
    ensures { result ≡ of_unchecked class }
{
    Refusal {
        status: NO_SOLVER,
        note: Note::Unchecked { class },
    }
}

/// The status for a fault of a text.
fn file_status(fault: &FileFault) -> u8
    ensures { result ≡ file_status fault.now }
{
    match fault {
        FileFault::Limit { .. } => LIMIT,
        FileFault::Memory => NO_MEMORY,
        FileFault::Head { .. }
        | FileFault::Missing { .. }
        | FileFault::Cut { .. }
        | FileFault::Line { .. }
        | FileFault::Count { .. }
        | FileFault::Key { .. }
        | FileFault::Name { .. }
        | FileFault::Number { .. }
        | FileFault::Again { .. }
        | FileFault::ArcAgain { .. }
        | FileFault::Unknown { .. }
        | FileFault::After { .. }
        | FileFault::Class { .. }
        | FileFault::Cycle { .. } => BAD_INPUT,
    }
}

/// The status where an instance is not solved.
fn cannot_status(cannot: Cannot) -> u8
    ensures { result ≡ cannot_status cannot }
{
    match cannot {
        Cannot::NoSolver { .. } => NO_SOLVER,
        Cannot::NotSolved { .. } | Cannot::NoRoute { .. } => NO_ROUTE,
        Cannot::Unfit { .. } => LIMIT,
        Cannot::Memory => NO_MEMORY,
    }
}

/// The status where an instance gets no certificate.
fn uncertified_status(why: Uncertified) -> u8
    ensures { result ≡ uncertified_status why }
{
    match why {
        Uncertified::NoCertificate { .. } => NO_SOLVER,
        Uncertified::Unfit { .. } => LIMIT,
        Uncertified::Memory => NO_MEMORY,
    }
}

/// The status for a fault of a file of results.
fn results_status(fault: ResultFault) -> u8
    ensures { result ≡ results_status fault }
{
    match fault {
        ResultFault::Long { .. } | ResultFault::Many => LIMIT,
        ResultFault::Memory => NO_MEMORY,
        ResultFault::Header
        | ResultFault::Width { .. }
        | ResultFault::Name { .. }
        | ResultFault::Verdict { .. }
        | ResultFault::Source { .. } => BAD_INPUT,
    }
}
