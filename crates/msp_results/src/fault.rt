// The faults of a file of results, and their texts.
ghost use Rattle.std.specs.Prelude.{◌≡◌, ◌+◌, ◌≤◌, ◌++◌, length, codes};
ghost use Rattle.msp_name.specs.Faults.{fault_text};
ghost use Rattle.msp_name.specs.declared.fault.TheConstants.{FAULT_ROOM};
ghost use Rattle.msp_results.specs.declared.fault.ResultFault.TheVariants.{Memory};
ghost use Rattle.msp_results.specs.Faults.{record_text, results_text};

use msp_class::NoMemory;
use msp_name::{FAULT_ROOM, NameFault, ShortText};
use std::alloc::AllocError;

/// The first fault of a file of results. The header is record 0, and `at` is the number of an entry's record, from 1.
#[derive(Clone, Copy, PartialEq, Eq)]
pub enum ResultFault {
    /// There is no record, or the first is neither `class`, `verdict`, `source` nor `class`, `strength`, `source`.
    Header,
    /// The record has not three fields.
    Width { at: u32 },
    /// The first field is no name of a class.
    Name { at: u32, fault: NameFault },
    /// The second field is no verdict that a file of its version knows.
    Verdict { at: u32 },
    /// The third field is not UTF-8, or has a byte below 32 or the byte 127.
    Source { at: u32 },
    /// The third field is longer than 200 bytes.
    Long { at: u32 },
    /// There is a 20,001st entry.
    Many,
    /// Memory ran out.
    Memory,
}

impl From<NoMemory> for ResultFault {
    ghost from_gives = { λ _ e. e ≡ Memory };

    fn from(_refusal: NoMemory) -> ResultFault {
        ResultFault::Memory
    }
}

impl From<AllocError> for ResultFault {
    ghost from_gives = { λ _ e. e ≡ Memory };

    fn from(_refusal: AllocError) -> ResultFault {
        ResultFault::Memory
    }
}

impl ResultFault {
    /// The text of the fault. It takes no memory.
    pub fn text(self) -> ShortText<FAULT_ROOM>
        ensures { result ≡ results_text self }
    {
        match self {
            ResultFault::Header => ShortText::of(b"header"),
            ResultFault::Width { at } => recorded(at, b": width"),
            ResultFault::Name { at, fault } => misnamed(at, fault),
            ResultFault::Verdict { at } => recorded(at, b": verdict"),
            ResultFault::Source { at } => recorded(at, b": source"),
            ResultFault::Long { at } => recorded(at, b": limit of source"),
            ResultFault::Many => ShortText::of(b"limit of records"),
            ResultFault::Memory => ShortText::of(b"out of memory"),
        }
    }
}

/// The number of a record, which has at most 10 digits, and what is said of it.
fn recorded(at: u32, what: &[u8]) -> ShortText<FAULT_ROOM>
    requires { length what.now + 17 ≤ FAULT_ROOM }
    ensures text { result ≡ record_text at what.now }
    ensures short { length result ≤ length what.now + 17 }
{
    let mut digits = itoa::Buffer::new();
    let mut text = ShortText::of(b"record ");
    text.put(digits.format(at).as_bytes());
    text.put(what);
    text
}

fn misnamed(at: u32, fault: NameFault) -> ShortText<FAULT_ROOM>
    ensures { result ≡ record_text at (codes ": name: " ++ fault_text fault) }
{
    let mut text = recorded(at, b": name: ");
    text.put(fault.text().bytes());
    text
}
