// The classes that are solved, each with its solver.
ghost use Rattle.std.specs.Prelude.{◌≡◌, slice_get};
ghost use Rattle.msp_dispatch.specs.Solved.{solved_list, solved_classes};

use crate::by_name::target_of;
use msp_class::Class;
use msp_route::SolverName;

/// How many classes are solved.
pub(crate) const SOLVED: u32 = 36;

/// The solvers in the order in which their classes are tried.
const SOLVERS: [SolverName; SOLVED as usize] = [
    SolverName::Smith,
    SolverName::Lawler,
    SolverName::Moore,
    SolverName::Horn,
    SolverName::Blocks,
    SolverName::UnitBlocks,
    SolverName::Shortest,
    SolverName::Wrap,
    SolverName::Levels,
    SolverName::Uniform,
    SolverName::Unrelated,
    SolverName::SlotsLate,
    SolverName::SlotsCount,
    SolverName::Johnson,
    SolverName::Jackson,
    SolverName::Open2,
    SolverName::OpenCut,
    SolverName::UniformCut,
    SolverName::Lexical,
    SolverName::LateTable,
    SolverName::Search,
    SolverName::TreeDue,
    SolverName::PairDue,
    SolverName::Stairs,
    SolverName::CutSum,
    SolverName::CutWeights,
    SolverName::OpenWeights,
    SolverName::CutOpenWeights,
    SolverName::PlacesMost,
    SolverName::PlacesLate,
    SolverName::PlacesCount,
    SolverName::LevelsSum,
    SolverName::EqualHeads,
    SolverName::JacksonCut,
    SolverName::LinesLate,
    SolverName::LinesCount,
];

/// A class that is solved, and its solver.
#[derive(Clone, Copy, PartialEq, Eq)]
pub struct SolvedClass {
    pub class: Class,
    pub solver: SolverName,
}

/// The entry at a place of the list.
pub(crate) fn entry_at(n: u32) -> Option<SolvedClass>
    ensures { result ≡ slice_get solved_list n }
{
    match SOLVERS.get(n as usize) {
        None => None,
        Some(name) => Some(SolvedClass {
            class: target_of(*name),
            solver: *name,
        }),
    }
}

/// The class at a place, from 0, of the list of classes that are solved. None comes exactly from the length of the list on.
pub fn solved(n: u32) -> Option<Class>
    ensures { result ≡ slice_get solved_classes n }
{
    match entry_at(n) {
        None => None,
        Some(entry) => Some(entry.class),
    }
}
