// The rows whose criterion is another one at neutral data, which the instance holds. The class alone changes.
ghost use Rattle.std.specs.Prelude.{refl};
ghost use Rattle.msp_route.specs.laws.Stays.{carries_same};
ghost use Rattle.msp_plain.specs.laws.Names.{stay_8, stay_10, stay_11, stay_12, stay_13, stay_14};

use msp_route::KeepsData;

/// The makespan is the greatest lateness at due dates of 0 (Lageweg, Lawler, Lenstra and Rinnooy Kan 1982).
#[derive(Clone, Copy)]
pub struct Row8;

impl KeepsData for Row8 {
    const NUMBER: u8 = 8;

    ghost NUMBER = { 8 };

    ghost law = { carries_same refl stay_8 };
}

/// The sum of completion times is the weighted one at weights of 1 (Lageweg, Lawler, Lenstra and Rinnooy Kan 1982).
#[derive(Clone, Copy)]
pub struct Row10;

impl KeepsData for Row10 {
    const NUMBER: u8 = 10;

    ghost NUMBER = { 10 };

    ghost law = { carries_same refl stay_10 };
}

/// The sum of completion times is the total tardiness at due dates of 0 (Lageweg, Lawler, Lenstra and Rinnooy Kan 1982).
#[derive(Clone, Copy)]
pub struct Row11;

impl KeepsData for Row11 {
    const NUMBER: u8 = 11;

    ghost NUMBER = { 11 };

    ghost law = { carries_same refl stay_11 };
}

/// The weighted sum of completion times is the weighted tardiness at due dates of 0 (Lageweg, Lawler, Lenstra and Rinnooy Kan 1982).
#[derive(Clone, Copy)]
pub struct Row12;

impl KeepsData for Row12 {
    const NUMBER: u8 = 12;

    ghost NUMBER = { 12 };

    ghost law = { carries_same refl stay_12 };
}

/// The total tardiness is the weighted one at weights of 1 (Lageweg, Lawler, Lenstra and Rinnooy Kan 1982).
#[derive(Clone, Copy)]
pub struct Row13;

impl KeepsData for Row13 {
    const NUMBER: u8 = 13;

    ghost NUMBER = { 13 };

    ghost law = { carries_same refl stay_13 };
}

/// The number of late jobs is the weighted one at weights of 1 (Lageweg, Lawler, Lenstra and Rinnooy Kan 1982).
#[derive(Clone, Copy)]
pub struct Row14;

impl KeepsData for Row14 {
    const NUMBER: u8 = 14;

    ghost NUMBER = { 14 };

    ghost law = { carries_same refl stay_14 };
}
