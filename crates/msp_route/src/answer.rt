// What is answered to an instance.
use msp_class::Class;
use msp_pieces::Solution;
use msp_table::Chain;

/// A solver, by the name under which it is known.
#[derive(Clone, Copy, PartialEq, Eq)]
pub enum SolverName {
    Smith,
    Lawler,
    Moore,
    Horn,
    Blocks,
    UnitBlocks,
    Shortest,
    Wrap,
    Levels,
    Uniform,
    Unrelated,
    SlotsLate,
    SlotsCount,
    Johnson,
    Jackson,
    Open2,
    OpenCut,
    UniformCut,
    Lexical,
    LateTable,
    Search,
    TreeDue,
    PairDue,
    Stairs,
    CutSum,
    CutWeights,
    OpenWeights,
    CutOpenWeights,
    PlacesMost,
    PlacesLate,
    PlacesCount,
    LevelsSum,
    EqualHeads,
    JacksonCut,
    LinesLate,
    LinesCount,
}

/// A solution of an instance, with the chain of rows that led it to the class of a solver.
#[derive(Drop)]
pub struct Answer {
    pub chain: Chain,
    /// The class at the end of the chain.
    pub target: Class,
    /// The solver of that class.
    pub solver: SolverName,
    pub solution: Solution,
}
