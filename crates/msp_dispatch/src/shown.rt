// Solutions in the form of a report, and certificates of their costs.
ghost use Rattle.std.specs.Prelude.{Contains, IfOk};
ghost use Rattle.msp_instance.specs.Conditions.{InClass};
ghost use Rattle.msp_pieces.specs.Cost.{IsBest};
ghost use Rattle.msp_pieces.specs.Fraction.{IsLowest, IsSameFraction};
ghost use Rattle.msp_route.specs.Bounds.{IsAnswer};
ghost use Rattle.msp_dispatch.specs.Dispatch.{IsReported};
ghost use Rattle.msp_dispatch.specs.Certify.{IsCertified, searched_classes};
ghost use Rattle.msp_dispatch.specs.Shown.{IsCertifiable, Certifies, IsTriedValue};

use crate::solve::settled;
use msp_cert::{Certificate, Certified, Proof, find};
use msp_class::NoMemory;
use msp_instance::Instance;
use msp_pieces::{Frac, Solution};
use std::alloc::Global;

/// The solver's answer in the form in which it is reported.
pub(crate) fn reported(inst: &Instance, solution: Solution) -> Solution
    requires class { InClass inst.now }
    requires best { IsBest inst.now solution }
    requires bounds { IsAnswer inst.now solution.schedule }
    ensures reported { IsReported inst.now result }
    ensures same { IsSameFraction solution.cost result.cost }
{
    settled(inst, solution)
}

/// The solution with a certificate of its cost by the proof.
pub(crate) fn certified(inst: &Instance, solution: Solution, proof: Proof) -> Certified
    requires class { IsCertifiable inst.now }
    requires reported { IsReported inst.now solution }
    requires shown { Certifies inst.now solution.cost proof }
    ensures { IsCertified inst.now result }
{
    let bound = solution.cost;
    Certified {
        class: inst.class,
        solution,
        certificate: Certificate { bound, proof },
    }
}

/// The first of the proofs that are tried whose value is the cost.
fn found_proof(alloc: Global, inst: &Instance, cost: Frac) -> Result<Proof, NoMemory>
    requires class { InClass inst.now }
    requires first { Contains searched_classes inst.now.class }
    requires lowest { IsLowest cost }
    requires tried { IsTriedValue inst.now cost }
    ensures { IfOk result (Certifies inst.now cost) }
{
    match find(alloc, inst, cost)? {
        Some(proof) => Ok(proof),
        None => unreachable!(),
    }
}

/// The solver's answer with a certificate by the proof that is found for its cost.
pub(crate) fn searched(
    alloc: Global,
    inst: &Instance,
    solution: Solution,
) -> Result<Certified, NoMemory>
    requires class { InClass inst.now }
    requires listed { IsCertifiable inst.now }
    requires first { Contains searched_classes inst.now.class }
    requires best { IsBest inst.now solution }
    requires bounds { IsAnswer inst.now solution.schedule }
    requires tried { IsTriedValue inst.now solution.cost }
    ensures { IfOk result (IsCertified inst.now) }
{
    let solution = reported(inst, solution);
    let proof = found_proof(alloc, inst, solution.cost)?;
    Ok(certified(inst, solution, proof))
}
