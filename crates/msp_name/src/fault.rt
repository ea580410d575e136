// The faults of a name, and their texts.
ghost use Rattle.std.specs.Prelude.{◌≡◌, ◌+◌, ◌≤◌, ◌++◌, length, decimal};
ghost use Rattle.msp_name.specs.Faults.{fault_text};
ghost use Rattle.msp_name.specs.declared.fault.TheConstants.{FAULT_ROOM};

use crate::short_text::ShortText;
use std::marker::Model;

/// The greatest length of a fault's text.
pub const LONGEST_FAULT: usize = 31;
/// How many bytes the text of a fault keeps.
pub const FAULT_ROOM: usize = 64;

/// The first fault of a text that is no name of a class. A place `at` counts bytes from 0.
#[derive(Clone, Copy, PartialEq, Eq)]
pub enum NameFault {
    /// There are not exactly two bars.
    Bars,
    /// The text before the first bar is no environment.
    Environment { at: u32 },
    /// A text between two commas is no item.
    Item { at: u32 },
    /// The item stands there a second time.
    Twice { at: u32 },
    /// A second order, other times than those before, or `n<=2` in an environment that is neither J2 nor J.
    Clash { at: u32 },
    /// The text after the second bar is no criterion.
    Criterion { at: u32 },
}

/// The text of a fault.
#[derive(Drop)]
pub struct FaultText {
    text: ShortText<FAULT_ROOM>,
}

impl Model for FaultText {
    ghost use Rattle.std.specs.Prelude.{ℕ, List};

    ghost Value = { List ℕ };

    ghost view = { λ t. t.text };
}

impl FaultText {
    /// The bytes of the text.
    pub fn bytes(&self) -> &[u8]
        ensures { result.now ≡ self.now }
    {
        self.text.bytes()
    }
}

impl NameFault {
    /// The text of the fault. It takes no memory.
    pub fn text(self) -> FaultText
        ensures text { result ≡ fault_text self }
        ensures short { length result ≤ LONGEST_FAULT }
    {
        match self {
            NameFault::Bars => plain(b"not two bars"),
            NameFault::Environment { at } => placed(b"environment at ", at),
            NameFault::Item { at } => placed(b"item at ", at),
            NameFault::Twice { at } => placed(b"item again at ", at),
            NameFault::Clash { at } => placed(b"item does not fit at ", at),
            NameFault::Criterion { at } => placed(b"criterion at ", at),
        }
    }
}

fn plain(bytes: &[u8]) -> FaultText
    requires { length bytes.now ≤ FAULT_ROOM }
    ensures { result ≡ bytes.now }
{
    FaultText {
        text: ShortText::of(bytes),
    }
}

/// The text with the digits of a place behind it, which are at most 10.
fn placed(bytes: &[u8], at: u32) -> FaultText
    requires { length bytes.now + 10 ≤ FAULT_ROOM }
    ensures text { result ≡ bytes.now ++ decimal at }
    ensures short { length result ≤ length bytes.now + 10 }
{
    let mut digits = itoa::Buffer::new();
    let mut text = ShortText::of(bytes);
    text.put(digits.format(at).as_bytes());
    FaultText { text }
}
