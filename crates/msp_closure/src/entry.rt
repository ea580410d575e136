// Known results, and what a list of them says of a class.
use msp_class::{Class, List};

/// What is known of a listed class.
#[derive(Clone, Copy, PartialEq, Eq)]
pub enum Verdict {
    /// It is solvable in polynomial time.
    Easy,
    /// It is solvable in pseudopolynomial time.
    Pseudo,
    /// It is NP-hard.
    Hard,
    /// It is NP-hard in the strong sense.
    Strong,
}

/// A known result: a class, its verdict, and where the result was published.
#[derive(Drop)]
pub struct Entry {
    pub class: Class,
    pub verdict: Verdict,
    /// UTF-8 text.
    pub source: List<u8>,
}

/// What a list of known results says of a class.
#[derive(Clone, Copy, PartialEq, Eq)]
pub enum Mark {
    /// It is solvable in polynomial time, and nothing says that it is hard.
    Easy,
    /// It is solvable in pseudopolynomial time; whether it is easy or hard is open.
    Pseudo,
    /// It is NP-hard, and solvable in pseudopolynomial time.
    Weak,
    /// It is NP-hard; whether in the strong sense is open.
    Hard,
    /// It is NP-hard in the strong sense.
    Strong,
    /// It is NP-hard in the strong sense and solvable in pseudopolynomial time: the list contradicts itself, unless P = NP.
    Torn,
    /// It is easy and hard: the list contradicts itself, unless P = NP.
    Both,
    /// The list says nothing of it.
    Unsettled,
}
