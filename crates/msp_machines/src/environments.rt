// The rows that lead to an environment of which theirs is a case. The machines and the jobs stay as they are.
ghost use Rattle.std.specs.Prelude.{refl};
ghost use Rattle.msp_route.specs.laws.Stays.{carries_same};
ghost use Rattle.msp_machines.specs.laws.Environments.{stay_17, stay_18, stay_19, stay_22, stay_25, stay_35, stay_36, stay_37, stay_38, stay_41, stay_42, stay_43, stay_44};

use msp_route::KeepsData;

/// One machine is the case of any number of identical machines (Lageweg, Lawler, Lenstra and Rinnooy Kan 1982).
#[derive(Clone, Copy)]
pub struct Row17;

impl KeepsData for Row17 {
    const NUMBER: u8 = 17;

    ghost NUMBER = { 17 };

    ghost law = { carries_same refl stay_17 };
}

/// Two identical machines are the case of any number of them (Lageweg, Lawler, Lenstra and Rinnooy Kan 1982).
#[derive(Clone, Copy)]
pub struct Row18;

impl KeepsData for Row18 {
    const NUMBER: u8 = 18;

    ghost NUMBER = { 18 };

    ghost law = { carries_same refl stay_18 };
}

/// Three identical machines are the case of any number of them (Lageweg, Lawler, Lenstra and Rinnooy Kan 1982).
#[derive(Clone, Copy)]
pub struct Row19;

impl KeepsData for Row19 {
    const NUMBER: u8 = 19;

    ghost NUMBER = { 19 };

    ghost law = { carries_same refl stay_19 };
}

/// Two uniform machines are the case of any number of them (Lageweg, Lawler, Lenstra and Rinnooy Kan 1982).
#[derive(Clone, Copy)]
pub struct Row22;

impl KeepsData for Row22 {
    const NUMBER: u8 = 22;

    ghost NUMBER = { 22 };

    ghost law = { carries_same refl stay_22 };
}

/// Two unrelated machines are the case of any number of them (Lageweg, Lawler, Lenstra and Rinnooy Kan 1982).
#[derive(Clone, Copy)]
pub struct Row25;

impl KeepsData for Row25 {
    const NUMBER: u8 = 25;

    ghost NUMBER = { 25 };

    ghost law = { carries_same refl stay_25 };
}

/// A flow shop of two machines is the case of any number of machines (Lageweg, Lawler, Lenstra and Rinnooy Kan 1982).
#[derive(Clone, Copy)]
pub struct Row35;

impl KeepsData for Row35 {
    const NUMBER: u8 = 35;

    ghost NUMBER = { 35 };

    ghost law = { carries_same refl stay_35 };
}

/// A flow shop of three machines is the case of any number of machines (Lageweg, Lawler, Lenstra and Rinnooy Kan 1982).
#[derive(Clone, Copy)]
pub struct Row36;

impl KeepsData for Row36 {
    const NUMBER: u8 = 36;

    ghost NUMBER = { 36 };

    ghost law = { carries_same refl stay_36 };
}

/// An open shop of two machines is the case of any number of machines (Lageweg, Lawler, Lenstra and Rinnooy Kan 1982).
#[derive(Clone, Copy)]
pub struct Row37;

impl KeepsData for Row37 {
    const NUMBER: u8 = 37;

    ghost NUMBER = { 37 };

    ghost law = { carries_same refl stay_37 };
}

/// An open shop of three machines is the case of any number of machines (Lageweg, Lawler, Lenstra and Rinnooy Kan 1982).
#[derive(Clone, Copy)]
pub struct Row38;

impl KeepsData for Row38 {
    const NUMBER: u8 = 38;

    ghost NUMBER = { 38 };

    ghost law = { carries_same refl stay_38 };
}

/// On two machines, jobs of at most two operations are the case of any number of operations (Lageweg, Lawler, Lenstra and Rinnooy Kan 1982).
#[derive(Clone, Copy)]
pub struct Row41;

impl KeepsData for Row41 {
    const NUMBER: u8 = 41;

    ghost NUMBER = { 41 };

    ghost law = { carries_same refl stay_41 };
}

/// A job shop of two machines with at most two operations a job is the case of any number of machines (Lageweg, Lawler, Lenstra and Rinnooy Kan 1982).
#[derive(Clone, Copy)]
pub struct Row42;

impl KeepsData for Row42 {
    const NUMBER: u8 = 42;

    ghost NUMBER = { 42 };

    ghost law = { carries_same refl stay_42 };
}

/// A job shop of two machines is the case of any number of machines (Lageweg, Lawler, Lenstra and Rinnooy Kan 1982).
#[derive(Clone, Copy)]
pub struct Row43;

impl KeepsData for Row43 {
    const NUMBER: u8 = 43;

    ghost NUMBER = { 43 };

    ghost law = { carries_same refl stay_43 };
}

/// Jobs of at most two operations are the case of any number of operations (Lageweg, Lawler, Lenstra and Rinnooy Kan 1982).
#[derive(Clone, Copy)]
pub struct Row44;

impl KeepsData for Row44 {
    const NUMBER: u8 = 44;

    ghost NUMBER = { 44 };

    ghost law = { carries_same refl stay_44 };
}
