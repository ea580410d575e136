// The rows by their numbers, their kinds, and chains of them.
ghost use Rattle.std.specs.Prelude.{◌≡◌, ◌≤◌, ◌↔◌, ℕ, IsSome, IfSome};

use msp_class::{Class, List};
use std::marker::Model;

/// How many rows the table has.
pub const ROWS: u8 = 54;

/// A row of the table. Contracts see it as its number, from 1 to `ROWS`.
#[derive(Clone, Copy, PartialEq, Eq)]
pub struct Row {
    number: u8,
}

impl Model for Row {
    ghost use Rattle.std.specs.Prelude.{ℕ, ◌≤◌};
    ghost use Rattle.msp_table.specs.declared.row.TheConstants.{ROWS};

    ghost Value = { ℕ };

    ghost view = { λ r. r.number };

    ghost invariant = { λ r. (1 ≤ r.number) × (r.number ≤ ROWS) };

    ghost inverse = { λ n. record { number = n } };
}

impl Row {
    /// The row of a number. None comes exactly outside 1 to `ROWS`.
    pub fn new(n: u8) -> Option<Row>
        ensures some { IsSome result ↔ ((1 ≤ n) × (n ≤ ROWS)) }
        ensures value { IfSome result (λ r. r ≡ n) }
    {
        if n >= 1 && n <= ROWS {
            Some(Row { number: n })
        } else {
            None
        }
    }

    pub fn number(self) -> u8
        ensures value { result ≡ self }
        ensures from_one { 1 ≤ result }
        ensures to_last { result ≤ ROWS }
    {
        self.number
    }
}

/// Whether a row carries schedules.
#[derive(Clone, Copy, PartialEq, Eq)]
pub enum RowKind {
    /// A best schedule of the class led to gives a best schedule of the class before.
    Carries,
    /// The class led to only decides whether a cost can be met.
    Threshold,
}

/// Rows that lead, one after the other, from a class.
#[derive(Drop)]
pub struct Chain {
    pub from: Class,
    pub rows: List<Row>,
}
