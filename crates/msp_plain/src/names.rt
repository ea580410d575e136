// The rows that widen the precedence constraints, the release dates or the processing times. The class alone changes.
ghost use Rattle.std.specs.Prelude.{refl};
ghost use Rattle.msp_route.specs.laws.Stays.{carries_same};
ghost use Rattle.msp_plain.specs.laws.Names.{stay_1, stay_2, stay_3, stay_4, stay_5, stay_6, stay_7, stay_53};

use msp_route::KeepsData;

/// No precedence constraints are chains without arcs (Lageweg, Lawler, Lenstra and Rinnooy Kan 1982).
#[derive(Clone, Copy)]
pub struct Row1;

impl KeepsData for Row1 {
    const NUMBER: u8 = 1;

    ghost NUMBER = { 1 };

    ghost law = { carries_same refl stay_1 };
}

/// Chains are intrees: at most one arc leaves each job (Lageweg, Lawler, Lenstra and Rinnooy Kan 1982).
#[derive(Clone, Copy)]
pub struct Row2;

impl KeepsData for Row2 {
    const NUMBER: u8 = 2;

    ghost NUMBER = { 2 };

    ghost law = { carries_same refl stay_2 };
}

/// Chains are outtrees: at most one arc enters each job (Lageweg, Lawler, Lenstra and Rinnooy Kan 1982).
#[derive(Clone, Copy)]
pub struct Row3;

impl KeepsData for Row3 {
    const NUMBER: u8 = 3;

    ghost NUMBER = { 3 };

    ghost law = { carries_same refl stay_3 };
}

/// Intrees are precedence constraints (Lageweg, Lawler, Lenstra and Rinnooy Kan 1982).
#[derive(Clone, Copy)]
pub struct Row4;

impl KeepsData for Row4 {
    const NUMBER: u8 = 4;

    ghost NUMBER = { 4 };

    ghost law = { carries_same refl stay_4 };
}

/// Outtrees are precedence constraints (Lageweg, Lawler, Lenstra and Rinnooy Kan 1982).
#[derive(Clone, Copy)]
pub struct Row5;

impl KeepsData for Row5 {
    const NUMBER: u8 = 5;

    ghost NUMBER = { 5 };

    ghost law = { carries_same refl stay_5 };
}

/// No release dates are release dates of 0 (Lageweg, Lawler, Lenstra and Rinnooy Kan 1982).
#[derive(Clone, Copy)]
pub struct Row6;

impl KeepsData for Row6 {
    const NUMBER: u8 = 6;

    ghost NUMBER = { 6 };

    ghost law = { carries_same refl stay_6 };
}

/// Unit times are equal times (Brucker and Knust, Complexity Results for Scheduling Problems).
#[derive(Clone, Copy)]
pub struct Row7;

impl KeepsData for Row7 {
    const NUMBER: u8 = 7;

    ghost NUMBER = { 7 };

    ghost law = { carries_same refl stay_7 };
}

/// Equal times are times (Brucker and Knust, Complexity Results for Scheduling Problems).
#[derive(Clone, Copy)]
pub struct Row53;

impl KeepsData for Row53 {
    const NUMBER: u8 = 53;

    ghost NUMBER = { 53 };

    ghost law = { carries_same refl stay_53 };
}
