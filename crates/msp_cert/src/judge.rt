// When a certificate is accepted.
ghost use Rattle.std.specs.Prelude.{◌↔◌, IsTrue, IfOk, IfSome};
ghost use Rattle.msp_instance.specs.Conditions.{InClass};
ghost use Rattle.msp_pieces.specs.Fraction.{IsComparable};
ghost use Rattle.msp_cert.specs.Certificates.{IsAccepted, IsShown, KeepsLimits};
ghost use Rattle.msp_cert.specs.Worth.{IsWorth};

use crate::block::block_worth;
use crate::group::group_worth;
use crate::levels::levels_worth;
use crate::prices::prices_worth;
use crate::segments::segments_worth;
use crate::shops::{line_worth, machine_worth};
use crate::worth::shows;
use crate::{Certificate, Proof};
use msp_class::NoMemory;
use msp_instance::Instance;
use msp_pieces::Frac;
use std::alloc::Global;

/// What a proof is worth.
#[tactic(auto, using(crate::proofs::SegmentFacts::short_lists))]
fn worth(alloc: Global, inst: &Instance, proof: &Proof) -> Result<Option<Frac>, NoMemory>
    requires class { InClass inst.now }
    requires limits { KeepsLimits proof.now }
    ensures worth { IfOk result (IsWorth inst.now proof.now) }
    ensures small { IfOk result (λ w. IfSome w IsComparable) }
{
    match proof {
        Proof::Group { jobs } => group_worth(alloc, inst, jobs.as_slice()),
        Proof::Machine { machine } => Ok(machine_worth(inst, *machine)),
        Proof::Line { job } => Ok(line_worth(inst, *job)),
        Proof::Levels { level, tail } => Ok(levels_worth(inst, level.as_slice(), *tail)),
        Proof::Segments { lists } => segments_worth(alloc, inst, lists.as_slice()),
        Proof::Block { head, jobs } => block_worth(alloc, inst, head.as_slice(), jobs.as_slice()),
        Proof::Prices { row, column } => Ok(prices_worth(inst, row.as_slice(), column.as_slice())),
    }
}

/// Whether the evidence of the proof holds, and the bound is at most its value.
fn is_shown(alloc: Global, inst: &Instance, bound: &Frac, proof: &Proof) -> Result<bool, NoMemory>
    requires class { InClass inst.now }
    requires bound { IsComparable bound.now }
    requires limits { KeepsLimits proof.now }
    ensures { IfOk result (λ yes. IsTrue yes ↔ IsShown inst.now bound.now proof.now) }
{
    let worth = worth(alloc, inst, proof)?;
    Ok(shows(bound, worth))
}

/// Whether the certificate is accepted: the evidence of its proof holds, and the bound is at most its value. No solver is called.
pub fn accept(alloc: Global, inst: &Instance, cert: &Certificate) -> Result<bool, NoMemory>
    requires class { InClass inst.now }
    requires bound { IsComparable cert.now.bound }
    requires limits { KeepsLimits cert.now.proof }
    ensures { IfOk result (λ yes. IsTrue yes ↔ IsAccepted inst.now cert.now) }
{
    is_shown(alloc, inst, &cert.bound, &cert.proof)
}
