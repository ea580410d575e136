// The versions of a file of results.

/// The version of a file. The first knows two verdicts, the second four.
#[derive(Clone, Copy, PartialEq, Eq)]
pub enum Version {
    First,
    Second,
}
