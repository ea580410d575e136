// The report of `solve`.
ghost use Rattle.std.specs.Prelude.{◌≡◌, ◌++◌, IfOk, OnOk};
ghost use Rattle.msp_pieces.specs.Fraction.{IsLowest};
ghost use Rattle.msp_grammar.specs.ScheduleText.{IsStated};
ghost use Rattle.msp_report.specs.SolveText.{solver_word, solver_line, solve_report};

use crate::chain_text::put_chain;
use msp_class::NoMemory;
use msp_grammar::print_schedule;
use msp_route::{Answer, SolverName};
use msp_text::Part::Text;
use msp_text::{Names, put, put_all};
use std::alloc::Global;

/// The word for a solver.
fn word(solver: SolverName) -> &'static [u8]
    ensures { result.now ≡ solver_word solver }
{
    match solver {
        SolverName::Smith => b"smith",
        SolverName::Lawler => b"lawler",
        SolverName::Moore => b"moore",
        SolverName::Horn => b"horn",
        SolverName::Blocks => b"blocks",
        SolverName::UnitBlocks => b"unit-blocks",
        SolverName::Shortest => b"shortest",
        SolverName::Wrap => b"wrap",
        SolverName::Levels => b"levels",
        SolverName::Uniform => b"uniform",
        SolverName::Unrelated => b"unrelated",
        SolverName::SlotsLate => b"slots-late",
        SolverName::SlotsCount => b"slots-count",
        SolverName::Johnson => b"johnson",
        SolverName::Jackson => b"jackson",
        SolverName::Open2 => b"open2",
        SolverName::OpenCut => b"open-cut",
        SolverName::UniformCut => b"uniform-cut",
        SolverName::Lexical => b"lexical",
        SolverName::LateTable => b"late-table",
        SolverName::Search => b"search",
        SolverName::TreeDue => b"tree-due",
        SolverName::PairDue => b"pair-due",
        SolverName::Stairs => b"stairs",
        SolverName::CutSum => b"cut-sum",
        SolverName::CutWeights => b"cut-weights",
        SolverName::OpenWeights => b"open-weights",
        SolverName::CutOpenWeights => b"cut-open-weights",
        SolverName::PlacesMost => b"places-most",
        SolverName::PlacesLate => b"places-late",
        SolverName::PlacesCount => b"places-count",
        SolverName::LevelsSum => b"levels-sum",
        SolverName::EqualHeads => b"equal-heads",
        SolverName::JacksonCut => b"jackson-cut",
        SolverName::LinesLate => b"lines-late",
        SolverName::LinesCount => b"lines-count",
    }
}

#[tactic(auto, unfolding(crate::specs::SolveText::solver_line))]
pub(crate) fn put_solver(out: &mut Vec<u8>, solver: SolverName) -> Result<(), NoMemory>
    ensures { OnOk result (out.new.items ≡ out.old.items ++ solver_line solver) }
{
    put_all(out, &[Text(b"solver "), Text(word(solver)), Text(b"\n")])
}

/// The report of `solve` for an answer, with its jobs' names.
#[tactic(auto, unfolding(crate::specs::SolveText::solve_report))]
pub fn solve_text(alloc: Global, names: &Names, answer: &Answer) -> Result<Vec<u8>, NoMemory>
    requires stated { IsStated names.now answer.now.solution.schedule answer.now.solution.cost }
    requires lowest { IsLowest answer.now.solution.cost }
    ensures { IfOk result (λ text. text.items ≡ solve_report names.now answer.now) }
{
    let schedule = print_schedule(alloc, names, &answer.solution)?;
    let mut text = Vec::new(alloc);
    put_chain(&mut text, &answer.chain)?;
    put_solver(&mut text, answer.solver)?;
    put(&mut text, &schedule)?;
    Ok(text)
}
