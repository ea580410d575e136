// The solver of a name: the one place where the solvers are named one by one in code.
ghost use Rattle.std.specs.Prelude.{◌≡◌, Some, IfOk};
ghost use Rattle.msp_instance.specs.Conditions.{Inner};
ghost use Rattle.msp_pieces.specs.Cost.{IsBest};
ghost use Rattle.msp_pieces.specs.Within.{Within};
ghost use Rattle.msp_carry.specs.Carried.{carried};
ghost use Rattle.msp_dispatch.specs.Pick.{class_of, IsLedTo};
ghost use Rattle.msp_dispatch.specs.Solved.{Fits};

use crate::threshold::threshold_search;
use msp_blocks::{Blocks, UnitBlocks};
use msp_carry::solve_along;
use msp_class::{Class, List, NoMemory};
use msp_cut_sums::{CutOpenWeights, CutSum, CutWeights, OpenWeights};
use msp_due::{PairDue, TreeDue};
use msp_instance::Instance;
use msp_levels::{Levels, LevelsSum};
use msp_lexical::Lexical;
use msp_pieces::Solution;
use msp_places::{PlacesCount, PlacesLate, PlacesMost};
use msp_route::{Solver, SolverName};
use msp_shops::{Jackson, JacksonCut, Johnson, Open2, OpenCut};
use msp_single::{Lawler, Moore, Smith};
use msp_srpt::{EqualHeads, Shortest};
use msp_stairs::Stairs;
use msp_table::Row;
use msp_total::{LinesCount, LinesLate, SlotsCount, SlotsLate, Uniform, Unrelated};
use msp_trees::Horn;
use msp_uniform::UniformCut;
use msp_weighted::LateTable;
use msp_wrap::Wrap;
use std::alloc::Global;

/// Calls with the solver of a name.
macro_rules! at_solver {
    ($name:expr, $call:ident $(, $argument:expr)*) => {
        match $name {
            SolverName::Smith => $call($($argument,)* &Smith),
            SolverName::Lawler => $call($($argument,)* &Lawler),
            SolverName::Moore => $call($($argument,)* &Moore),
            SolverName::Horn => $call($($argument,)* &Horn),
            SolverName::Blocks => $call($($argument,)* &Blocks),
            SolverName::UnitBlocks => $call($($argument,)* &UnitBlocks),
            SolverName::Shortest => $call($($argument,)* &Shortest),
            SolverName::Wrap => $call($($argument,)* &Wrap),
            SolverName::Levels => $call($($argument,)* &Levels),
            SolverName::Uniform => $call($($argument,)* &Uniform),
            SolverName::Unrelated => $call($($argument,)* &Unrelated),
            SolverName::SlotsLate => $call($($argument,)* &SlotsLate),
            SolverName::SlotsCount => $call($($argument,)* &SlotsCount),
            SolverName::Johnson => $call($($argument,)* &Johnson),
            SolverName::Jackson => $call($($argument,)* &Jackson),
            SolverName::Open2 => $call($($argument,)* &Open2),
            SolverName::OpenCut => $call($($argument,)* &OpenCut),
            SolverName::UniformCut => $call($($argument,)* &UniformCut),
            SolverName::Lexical => $call($($argument,)* &Lexical),
            SolverName::LateTable => $call($($argument,)* &LateTable),
            SolverName::Search => $call($($argument,)* &threshold_search()),
            SolverName::TreeDue => $call($($argument,)* &TreeDue),
            SolverName::PairDue => $call($($argument,)* &PairDue),
            SolverName::Stairs => $call($($argument,)* &Stairs),
            SolverName::CutSum => $call($($argument,)* &CutSum),
            SolverName::CutWeights => $call($($argument,)* &CutWeights),
            SolverName::OpenWeights => $call($($argument,)* &OpenWeights),
            SolverName::CutOpenWeights => $call($($argument,)* &CutOpenWeights),
            SolverName::PlacesMost => $call($($argument,)* &PlacesMost),
            SolverName::PlacesLate => $call($($argument,)* &PlacesLate),
            SolverName::PlacesCount => $call($($argument,)* &PlacesCount),
            SolverName::LevelsSum => $call($($argument,)* &LevelsSum),
            SolverName::EqualHeads => $call($($argument,)* &EqualHeads),
            SolverName::JacksonCut => $call($($argument,)* &JacksonCut),
            SolverName::LinesLate => $call($($argument,)* &LinesLate),
            SolverName::LinesCount => $call($($argument,)* &LinesCount),
        }
    };
}

fn target<S: Solver>(solver: &S) -> Class
    ensures { result ≡ S.solved solver.now }
{
    solver.target()
}

/// The class that the solver of the name solves.
#[tactic(auto, unfolding(crate::specs::Pick::class_of))]
pub(crate) fn target_of(name: SolverName) -> Class
    ensures { class_of name ≡ Some result }
{
    at_solver!(name, target)
}

/// A best solution of the instance by the solver of the name, at the end of the chain.
#[tactic(auto, unfolding(crate::specs::Pick::class_of))]
pub(crate) fn solve_at(
    alloc: Global,
    inst: &Instance,
    rows: &List<Row>,
    name: SolverName,
) -> Result<Solution, NoMemory>
    requires inner { Inner inst.now }
    requires chain { IsLedTo inst.now rows.now name }
    requires fits { Fits name (carried rows.now inst.now) }
    ensures best { IfOk result (λ s. IsBest inst.now s) }
    ensures within { IfOk result (λ s. Within inst.now s.schedule) }
{
    at_solver!(name, solve_along, alloc, inst, rows)
}
