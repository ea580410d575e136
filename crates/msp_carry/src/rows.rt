// The carrying rows by their numbers.
ghost use Rattle.std.specs.Prelude.{◌≡◌, IfOk, IsTrue};
ghost use Rattle.msp_instance.specs.Conditions.{Inner};
ghost use Rattle.msp_pieces.specs.Cost.{IsSolution, IsBest};
ghost use Rattle.msp_table.specs.Rows.{carries};
ghost use Rattle.msp_route.specs.Law.{Applies, IsLower, IsBack};
ghost use Rattle.msp_route.specs.Rates.{rate_of};
ghost use Rattle.msp_route.specs.Bounds.{IsBounded, KeepsBounds};
ghost use Rattle.msp_carry.specs.Carried.{lower_of};
ghost use Rattle.msp_carry.specs.Steps.{ComesFrom, IsBroughtBack};

use crate::step::{step_back, step_down};
use msp_class::NoMemory;
use msp_instance::Instance;
use msp_machines::{
    Row17, Row18, Row19, Row20, Row21, Row22, Row23, Row24, Row25, Row26, Row27, Row28, Row29,
    Row30, Row31, Row32, Row33, Row34, Row35, Row36, Row37, Row38, Row39, Row40, Row41, Row42,
    Row43, Row44,
};
use msp_pieces::Solution;
use msp_plain::{
    Row1, Row2, Row3, Row4, Row5, Row6, Row7, Row8, Row9, Row10, Row11, Row12, Row13, Row14, Row53,
    Row54,
};
use msp_table::Row;
use msp_turn::{Row45, Row46, Row47, Row48, Row49, Row50, Row51, Row52};
use std::alloc::Global;

/// Calls the step at the reduction of the row, which is a carrying one.
macro_rules! at_row {
    ($row:expr, $step:ident, $($argument:expr),*) => {
        match $row.number() {
            1 => $step(&Row1, $($argument),*),
            2 => $step(&Row2, $($argument),*),
            3 => $step(&Row3, $($argument),*),
            4 => $step(&Row4, $($argument),*),
            5 => $step(&Row5, $($argument),*),
            6 => $step(&Row6, $($argument),*),
            7 => $step(&Row7, $($argument),*),
            8 => $step(&Row8, $($argument),*),
            9 => $step(&Row9, $($argument),*),
            10 => $step(&Row10, $($argument),*),
            11 => $step(&Row11, $($argument),*),
            12 => $step(&Row12, $($argument),*),
            13 => $step(&Row13, $($argument),*),
            14 => $step(&Row14, $($argument),*),
            17 => $step(&Row17, $($argument),*),
            18 => $step(&Row18, $($argument),*),
            19 => $step(&Row19, $($argument),*),
            20 => $step(&Row20, $($argument),*),
            21 => $step(&Row21, $($argument),*),
            22 => $step(&Row22, $($argument),*),
            23 => $step(&Row23, $($argument),*),
            24 => $step(&Row24, $($argument),*),
            25 => $step(&Row25, $($argument),*),
            26 => $step(&Row26, $($argument),*),
            27 => $step(&Row27, $($argument),*),
            28 => $step(&Row28, $($argument),*),
            29 => $step(&Row29, $($argument),*),
            30 => $step(&Row30, $($argument),*),
            31 => $step(&Row31, $($argument),*),
            32 => $step(&Row32, $($argument),*),
            33 => $step(&Row33, $($argument),*),
            34 => $step(&Row34, $($argument),*),
            35 => $step(&Row35, $($argument),*),
            36 => $step(&Row36, $($argument),*),
            37 => $step(&Row37, $($argument),*),
            38 => $step(&Row38, $($argument),*),
            39 => $step(&Row39, $($argument),*),
            40 => $step(&Row40, $($argument),*),
            41 => $step(&Row41, $($argument),*),
            42 => $step(&Row42, $($argument),*),
            43 => $step(&Row43, $($argument),*),
            44 => $step(&Row44, $($argument),*),
            45 => $step(&Row45, $($argument),*),
            46 => $step(&Row46, $($argument),*),
            47 => $step(&Row47, $($argument),*),
            48 => $step(&Row48, $($argument),*),
            49 => $step(&Row49, $($argument),*),
            50 => $step(&Row50, $($argument),*),
            51 => $step(&Row51, $($argument),*),
            52 => $step(&Row52, $($argument),*),
            53 => $step(&Row53, $($argument),*),
            _ => $step(&Row54, $($argument),*),
        }
    };
}

/// The lower instance of the row.
#[tactic(auto, unfolding(crate::specs::Carried::lower_of))]
pub(crate) fn down(alloc: Global, inst: &Instance, row: Row) -> Result<Instance, NoMemory>
    requires inner { Inner inst.now }
    requires carries { IsTrue (carries row) }
    requires applies { Applies row inst.now }
    ensures same { IfOk result (λ j. j ≡ lower_of row inst.now) }
    ensures led { IfOk result (λ j. IsLower row inst.now j) }
{
    at_row!(row, step_down, alloc, inst)
}

/// Brings a solution back at the reduction of the row.
#[tactic(auto, unfolding(crate::specs::Carried::lower_of))]
fn back_at_row(
    alloc: Global,
    inst: &Instance,
    row: Row,
    solution: Solution,
) -> Result<Solution, NoMemory>
    requires carries { IsTrue (carries row) }
    requires comes { ComesFrom row inst.now (lower_of row inst.now) solution }
    ensures { IfOk result (λ s. IsBroughtBack row inst.now (lower_of row inst.now) solution s) }
{
    at_row!(row, step_back, alloc, inst, solution)
}

/// A solution of the instance from one of the lower instance of the row, a best one from a best one.
pub(crate) fn back(
    alloc: Global,
    inst: &Instance,
    row: Row,
    solution: Solution,
) -> Result<Solution, NoMemory>
    requires inner { Inner inst.now }
    requires carries { IsTrue (carries row) }
    requires applies { Applies row inst.now }
    requires solution { IsSolution (lower_of row inst.now) solution }
    requires bounded { IsBounded (lower_of row inst.now) solution.schedule }
    ensures solution { IfOk result (λ s. IsSolution inst.now s) }
    ensures best { IsBest (lower_of row inst.now) solution → IfOk result (λ s. IsBest inst.now s) }
    ensures law { IfOk result (λ s. IsBack (rate_of row inst.now) inst.now (lower_of row inst.now) solution.schedule s.schedule) }
    ensures bounds { IfOk result (λ s. KeepsBounds row inst.now (lower_of row inst.now) solution.schedule s.schedule) }
{
    back_at_row(alloc, inst, row, solution)
}
