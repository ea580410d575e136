// The first operation that is out of its route, and the first that lacks work.
ghost use Rattle.std.specs.Prelude.{◌≡◌, ℕ, ◌<◌, true, false, length, All, IsNone, IfSome};
ghost use Rattle.msp_class.specs.declared.list.TheConstants.{PLACES};
ghost use Rattle.msp_instance.specs.Instance.{job_at};
ghost use Rattle.msp_instance.specs.Conditions.{Inner};
ghost use Rattle.msp_pieces.specs.Feasible.{HasPlace};
ghost use Rattle.msp_pieces.specs.Within.{IsMoment, AreSmallTimes};
ghost use Rattle.msp_schedule.specs.Breaks.{IsLeast, KeepsRoute, HasRoutes, KeepsRoutes, IsFirstOutOfRoute};
ghost use Rattle.msp_schedule.specs.Works.{AreMeasurable, LacksWorkAmong, IsWorked, AreWorked, IsFirstUnworked};

use crate::breaks::{has_operation, keeps_route};
use crate::work::gets_work;
use msp_class::{EnvKind, env_kind};
use msp_instance::Instance;
use msp_pieces::Piece;

/// The first of so many operations of the job that begins before an earlier one ends.
pub(crate) fn first_unrouted(pieces: &[Piece], job: u32, ops: u32) -> Option<u32>
    requires moments { All (λ p. IsMoment p.from × IsMoment p.to) pieces.now }
    ensures none { IsNone result → (o : ℕ) → o < ops → KeepsRoute pieces.now job o }
    ensures some { IfSome result (λ o. IsLeast ops (λ q. ¬ KeepsRoute pieces.now job q) o) }
{
    for op in 0..ops {
        if !keeps_route(pieces, job, op) {
            return Some(op);
        }
    }
    None
}

/// How many needs the job has.
pub(crate) fn needs_of(inst: &Instance, job: u32) -> u32
    requires job { job < length inst.now.jobs }
    requires few { length (job_at inst.now job).needs < PLACES }
    ensures { result ≡ length (job_at inst.now job).needs }
{
    inst.jobs.as_slice()[job as usize].needs.len() as u32
}

/// The first operation that begins before an earlier one of its job ends.
pub(crate) fn first_route(inst: &Instance, pieces: &[Piece]) -> Option<(u32, u32)>
    requires jobs { length inst.now.jobs < PLACES }
    requires needs { (j : ℕ) → j < length inst.now.jobs → length (job_at inst.now j).needs < PLACES }
    requires places { All (λ p. p.op < length (job_at inst.now p.job).needs) pieces.now }
    requires moments { All (λ p. IsMoment p.from × IsMoment p.to) pieces.now }
    ensures none { IsNone result → KeepsRoutes inst.now pieces.now }
    ensures some { IfSome result (λ at. IsFirstOutOfRoute inst.now pieces.now at.0 at.1) }
{
    for job in 0..inst.jobs.len() as u32 {
        if let Some(op) = first_unrouted(pieces, job, needs_of(inst, job)) {
            return Some((job, op));
        }
    }
    None
}

/// Whether the operation has work to do and does not get it.
fn lacks_work(inst: &Instance, unit: i128, pieces: &[Piece], job: u32, op: u32) -> bool
    requires measured { AreMeasurable inst.now pieces.now }
    requires small { AreSmallTimes inst.now unit }
    requires job { job < length inst.now.jobs }
    ensures lacks { result ≡ true → LacksWorkAmong inst.now unit pieces.now job op }
    ensures worked { result ≡ false → IsWorked inst.now unit pieces.now job op }
{
    let needs = inst.jobs.as_slice()[job as usize].needs.as_slice();
    has_operation(env_kind(inst.class.env), needs, op) && !gets_work(inst, unit, pieces, job, op)
}

/// The first of so many operations of the job that lacks work.
pub(crate) fn first_unworked(
    inst: &Instance,
    unit: i128,
    pieces: &[Piece],
    job: u32,
    ops: u32,
) -> Option<u32>
    requires measured { AreMeasurable inst.now pieces.now }
    requires small { AreSmallTimes inst.now unit }
    requires job { job < length inst.now.jobs }
    ensures none { IsNone result → (o : ℕ) → o < ops → IsWorked inst.now unit pieces.now job o }
    ensures some { IfSome result (λ o. IsLeast ops (λ q. LacksWorkAmong inst.now unit pieces.now job q) o) }
{
    for op in 0..ops {
        if lacks_work(inst, unit, pieces, job, op) {
            return Some(op);
        }
    }
    None
}

/// The first operation that lacks work.
pub(crate) fn first_work(inst: &Instance, unit: i128, pieces: &[Piece]) -> Option<(u32, u32)>
    requires measured { AreMeasurable inst.now pieces.now }
    requires small { AreSmallTimes inst.now unit }
    ensures none { IsNone result → AreWorked inst.now unit pieces.now }
    ensures some { IfSome result (λ at. IsFirstUnworked inst.now unit pieces.now at.0 at.1) }
{
    for job in 0..inst.jobs.len() as u32 {
        if let Some(op) = first_unworked(inst, unit, pieces, job, needs_of(inst, job)) {
            return Some((job, op));
        }
    }
    None
}

/// The first operation that is out of its route, in flow and job shops.
pub(crate) fn first_out_of_route(inst: &Instance, pieces: &[Piece]) -> Option<(u32, u32)>
    requires inner { Inner inst.now }
    requires places { All (HasPlace inst.now) pieces.now }
    requires moments { All (λ p. IsMoment p.from × IsMoment p.to) pieces.now }
    ensures none { IsNone result → HasRoutes inst.now → KeepsRoutes inst.now pieces.now }
    ensures some { IfSome result (λ at. HasRoutes inst.now × IsFirstOutOfRoute inst.now pieces.now at.0 at.1) }
{
    match env_kind(inst.class.env) {
        EnvKind::FlowShop | EnvKind::JobShop => first_route(inst, pieces),
        _ => None,
    }
}
