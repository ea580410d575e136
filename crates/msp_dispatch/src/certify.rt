// A best solution with a certificate of its cost.
ghost use Rattle.std.specs.Prelude.{◌≡◌, ◌↔◌, IsTrue, IfOk, IfSome, IfNone, MatchResult};
ghost use Rattle.msp_instance.specs.Conditions.{InClass};
ghost use Rattle.msp_blocks.specs.Blocks.{blocks_class};
ghost use Rattle.msp_lexical.specs.Lexical.{lexical_class};
ghost use Rattle.msp_total.specs.Classes.{unrelated_class};
ghost use Rattle.msp_dispatch.specs.Certify.{HasCertificate, IsCertified, IsUncertified};
ghost use Rattle.msp_dispatch.specs.Shown.{class_of, FitsMaker};

use crate::Uncertified;
use crate::pick::is_same;
use crate::shown::{certified, reported, searched};
use msp_blocks::{BlockSolution, Blocks, solve_with_block};
use msp_cert::{Certified, Proof};
use msp_class::{Class, NoMemory};
use msp_instance::Instance;
use msp_levels::Levels;
use msp_lexical::{Lexical, SegmentSolution, solve_with_segments};
use msp_route::Solver;
use msp_shops::{Open2, OpenCut};
use msp_total::{PricedSolution, Unrelated, solve_with_prices};
use msp_uniform::UniformCut;
use msp_wrap::Wrap;
use std::alloc::Global;

/// The solvers whose best costs get a certificate.
#[derive(Clone, Copy)]
enum Maker {
    Wrap,
    UniformCut,
    OpenCut,
    Open2,
    Levels,
    Lexical,
    Unrelated,
    Blocks,
}

const MAKERS: [Maker; 8] = [
    Maker::Wrap,
    Maker::UniformCut,
    Maker::OpenCut,
    Maker::Open2,
    Maker::Levels,
    Maker::Lexical,
    Maker::Unrelated,
    Maker::Blocks,
];

/// The class that the solver solves.
fn class_of(maker: Maker) -> Class
    ensures { result ≡ class_of maker }
{
    match maker {
        Maker::Wrap => Wrap.target(),
        Maker::UniformCut => UniformCut.target(),
        Maker::OpenCut => OpenCut.target(),
        Maker::Open2 => Open2.target(),
        Maker::Levels => Levels.target(),
        Maker::Lexical => Lexical.target(),
        Maker::Unrelated => Unrelated.target(),
        Maker::Blocks => Blocks.target(),
    }
}

/// The solver of the class, where its best costs get a certificate.
fn maker_of(class: Class) -> Option<Maker>
    ensures some { IfSome result (λ m. class ≡ class_of m) }
    ensures none { IfNone result (¬ HasCertificate class) }
{
    for maker in MAKERS {
        if is_same(class, class_of(maker)) {
            return Some(maker);
        }
    }
    None
}

/// Whether the instance fits the solver.
fn fits(inst: &Instance, maker: Maker) -> bool
    requires inside { InClass inst.now }
    requires class { inst.now.class ≡ class_of maker }
    ensures { IsTrue result ↔ FitsMaker maker inst.now }
{
    match maker {
        Maker::UniformCut => UniformCut.fits(inst),
        _ => true,
    }
}

/// By lists of jobs of which each is done only after the one before it.
fn by_segments(alloc: Global, inst: &Instance) -> Result<Certified, NoMemory>
    requires inside { InClass inst.now }
    requires class { inst.now.class ≡ lexical_class }
    ensures { IfOk result (IsCertified inst.now) }
{
    let SegmentSolution { solution, segments } = solve_with_segments(alloc, inst)?;
    let solution = reported(inst, solution);
    let proof = Proof::Segments { lists: segments };
    Ok(certified(inst, solution, proof))
}

/// By prices of the jobs and positions.
fn by_prices(alloc: Global, inst: &Instance) -> Result<Certified, NoMemory>
    requires inside { InClass inst.now }
    requires class { inst.now.class ≡ unrelated_class }
    ensures { IfOk result (IsCertified inst.now) }
{
    let PricedSolution { solution, prices } = solve_with_prices(alloc, inst)?;
    let solution = reported(inst, solution);
    let proof = Proof::Prices {
        row: prices.row_price,
        column: prices.column_price,
    };
    Ok(certified(inst, solution, proof))
}

/// By the block whose last job costs most.
fn by_block(alloc: Global, inst: &Instance) -> Result<Certified, NoMemory>
    requires inside { InClass inst.now }
    requires class { inst.now.class ≡ blocks_class }
    ensures { IfOk result (IsCertified inst.now) }
{
    let BlockSolution { solution, block } = solve_with_block(alloc, inst)?;
    let solution = reported(inst, solution);
    let proof = Proof::Block {
        head: block.head,
        jobs: block.jobs,
    };
    Ok(certified(inst, solution, proof))
}

/// A best solution by the solver, and a certificate of its cost.
#[tactic(auto, using(crate::proofs::evidence::Certified::maker_rules))]
fn certified_by(alloc: Global, inst: &Instance, maker: Maker) -> Result<Certified, NoMemory>
    requires inside { InClass inst.now }
    requires class { inst.now.class ≡ class_of maker }
    requires fits { FitsMaker maker inst.now }
    ensures { IfOk result (IsCertified inst.now) }
{
    match maker {
        Maker::Wrap => searched(alloc, inst, Wrap.solve(alloc, inst)?),
        Maker::UniformCut => searched(alloc, inst, UniformCut.solve(alloc, inst)?),
        Maker::OpenCut => searched(alloc, inst, OpenCut.solve(alloc, inst)?),
        Maker::Open2 => searched(alloc, inst, Open2.solve(alloc, inst)?),
        Maker::Levels => searched(alloc, inst, Levels.solve(alloc, inst)?),
        Maker::Lexical => by_segments(alloc, inst),
        Maker::Unrelated => by_prices(alloc, inst),
        Maker::Blocks => by_block(alloc, inst),
    }
}

/// A best solution of the instance, and a certificate of its cost, which `msp_cert::accept` accepts, by one run of the solver. It is found
/// where the class is `P|pmtn|Cmax`, `Q|pmtn|Cmax`, `O|pmtn|Cmax`, `O2||Cmax`, `P|intree,p=1|Cmax`, `P2|prec,p=1|Cmax`, `R||sumC` or
/// `1|pmtn,prec,r|fmax`; an instance of the second may not fit its solver.
pub fn certify_any(alloc: Global, inst: &Instance) -> Result<Certified, Uncertified>
    requires { InClass inst.now }
    ensures { MatchResult result (IsCertified inst.now) (IsUncertified inst.now) }
{
    let class = inst.class;
    let maker = match maker_of(class) {
        Some(maker) => maker,
        None => return Err(Uncertified::NoCertificate { class }),
    };
    if !fits(inst, maker) {
        return Err(Uncertified::Unfit { class });
    }
    let certified = certified_by(alloc, inst, maker)?;
    Ok(certified)
}
