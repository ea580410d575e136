// The pieces of one job after another, in a list that is sorted by job: routes and work.
ghost use Rattle.std.specs.Prelude.{◌≡◌, ℕ, ◌<◌, ◌≤◌, length, take, drop, filter, ◌==◌, All, IsPermutation, IsNone, IfOk, IfSome};
ghost use Rattle.std.specs.List.Sorted.{IsNonDecreasingBy};
ghost use Rattle.msp_class.specs.declared.list.TheConstants.{PLACES};
ghost use Rattle.msp_class.specs.declared.sizes.TheConstants.{MOST_JOBS};
ghost use Rattle.msp_instance.specs.Instance.{job_at};
ghost use Rattle.msp_instance.specs.Conditions.{Inner};
ghost use Rattle.msp_pieces.specs.Feasible.{HasPlace};
ghost use Rattle.msp_pieces.specs.Within.{IsMoment, AreSmallTimes};
ghost use Rattle.msp_schedule.specs.Breaks.{IsLeast, KeepsRoute, HasRoutes, KeepsRoutes, IsFirstOutOfRoute};
ghost use Rattle.msp_schedule.specs.Works.{AreMeasurable, LacksWorkAmong, IsWorked, AreWorked, IsFirstUnworked};

use crate::routes::{first_unrouted, first_unworked, needs_of};
use msp_class::{EnvKind, NoMemory, env_kind};
use msp_instance::Instance;
use msp_pieces::Piece;
use std::alloc::Global;

fn sort_by_job(pieces: &mut Vec<Piece>)
    ensures permutation { IsPermutation pieces.old.items pieces.new.items }
    ensures sorted { IsNonDecreasingBy (λ p. p.job) pieces.new.items }
{
    pieces.sort_unstable_by_key(|p| p.job);
}

/// The pieces, sorted by job.
fn by_job(alloc: Global, pieces: &[Piece]) -> Result<Vec<Piece>, NoMemory>
    ensures permutation { IfOk result (λ sorted. IsPermutation pieces.now sorted.items) }
    ensures sorted { IfOk result (λ sorted. IsNonDecreasingBy (λ p. p.job) sorted.items) }
{
    let mut sorted = pieces.to_vec(alloc)?;
    sort_by_job(&mut sorted);
    Ok(sorted)
}

/// How many pieces are of jobs of lesser numbers.
fn count_before(pieces: &[Piece], job: u32) -> usize
    requires sorted { IsNonDecreasingBy (λ p. p.job) pieces.now }
    ensures bound { result ≤ length pieces.now }
    ensures before { All (λ p. p.job < job) (take result pieces.now) }
    ensures after { All (λ p. job ≤ p.job) (drop result pieces.now) }
{
    pieces.partition_point(|p| p.job < job)
}

/// The pieces of the job.
fn share(pieces: &[Piece], job: u32) -> &[Piece]
    requires sorted { IsNonDecreasingBy (λ p. p.job) pieces.now }
    requires job { job < MOST_JOBS }
    ensures { result.now ≡ filter (λ p. p.job == job) pieces.now }
{
    let rest = &pieces[count_before(pieces, job)..];
    &rest[..count_before(rest, job + 1)]
}

/// The first of so many operations of the job that begins before an earlier one ends.
fn unrouted_in(pieces: &[Piece], job: u32, ops: u32) -> Option<u32>
    requires sorted { IsNonDecreasingBy (λ p. p.job) pieces.now }
    requires job { job < MOST_JOBS }
    requires moments { All (λ p. IsMoment p.from × IsMoment p.to) pieces.now }
    ensures none { IsNone result → (o : ℕ) → o < ops → KeepsRoute pieces.now job o }
    ensures some { IfSome result (λ o. IsLeast ops (λ q. ¬ KeepsRoute pieces.now job q) o) }
{
    first_unrouted(share(pieces, job), job, ops)
}

/// The first operation that begins before an earlier one of its job ends.
fn route_in(inst: &Instance, pieces: &[Piece]) -> Option<(u32, u32)>
    requires sorted { IsNonDecreasingBy (λ p. p.job) pieces.now }
    requires jobs { length inst.now.jobs ≤ MOST_JOBS }
    requires needs { (j : ℕ) → j < length inst.now.jobs → length (job_at inst.now j).needs < PLACES }
    requires places { All (λ p. p.op < length (job_at inst.now p.job).needs) pieces.now }
    requires moments { All (λ p. IsMoment p.from × IsMoment p.to) pieces.now }
    ensures none { IsNone result → KeepsRoutes inst.now pieces.now }
    ensures some { IfSome result (λ at. IsFirstOutOfRoute inst.now pieces.now at.0 at.1) }
{
    for job in 0..inst.jobs.len() as u32 {
        if let Some(op) = unrouted_in(pieces, job, needs_of(inst, job)) {
            return Some((job, op));
        }
    }
    None
}

/// The first of so many operations of the job that lacks work.
fn unworked_in(inst: &Instance, unit: i128, pieces: &[Piece], job: u32, ops: u32) -> Option<u32>
    requires sorted { IsNonDecreasingBy (λ p. p.job) pieces.now }
    requires measured { AreMeasurable inst.now pieces.now }
    requires small { AreSmallTimes inst.now unit }
    requires job { job < length inst.now.jobs }
    ensures none { IsNone result → (o : ℕ) → o < ops → IsWorked inst.now unit pieces.now job o }
    ensures some { IfSome result (λ o. IsLeast ops (λ q. LacksWorkAmong inst.now unit pieces.now job q) o) }
{
    first_unworked(inst, unit, share(pieces, job), job, ops)
}

/// The first operation that lacks work.
fn work_in(inst: &Instance, unit: i128, pieces: &[Piece]) -> Option<(u32, u32)>
    requires sorted { IsNonDecreasingBy (λ p. p.job) pieces.now }
    requires measured { AreMeasurable inst.now pieces.now }
    requires small { AreSmallTimes inst.now unit }
    ensures none { IsNone result → AreWorked inst.now unit pieces.now }
    ensures some { IfSome result (λ at. IsFirstUnworked inst.now unit pieces.now at.0 at.1) }
{
    for job in 0..inst.jobs.len() as u32 {
        if let Some(op) = unworked_in(inst, unit, pieces, job, needs_of(inst, job)) {
            return Some((job, op));
        }
    }
    None
}

/// The first operation that is out of its route, where operations have one.
fn sorted_route(
    alloc: Global,
    inst: &Instance,
    pieces: &[Piece],
) -> Result<Option<(u32, u32)>, NoMemory>
    requires inner { Inner inst.now }
    requires routes { HasRoutes inst.now }
    requires places { All (HasPlace inst.now) pieces.now }
    requires moments { All (λ p. IsMoment p.from × IsMoment p.to) pieces.now }
    ensures none { IfOk result (λ r. IsNone r → KeepsRoutes inst.now pieces.now) }
    ensures some { IfOk result (λ r. IfSome r (λ at. IsFirstOutOfRoute inst.now pieces.now at.0 at.1)) }
{
    let sorted = by_job(alloc, pieces)?;
    Ok(route_in(inst, &sorted))
}

/// The first operation that is out of its route, in flow and job shops.
pub(crate) fn swept_route(
    alloc: Global,
    inst: &Instance,
    pieces: &[Piece],
) -> Result<Option<(u32, u32)>, NoMemory>
    requires inner { Inner inst.now }
    requires places { All (HasPlace inst.now) pieces.now }
    requires moments { All (λ p. IsMoment p.from × IsMoment p.to) pieces.now }
    ensures none { IfOk result (λ r. IsNone r → HasRoutes inst.now → KeepsRoutes inst.now pieces.now) }
    ensures some { IfOk result (λ r. IfSome r (λ at. HasRoutes inst.now × IsFirstOutOfRoute inst.now pieces.now at.0 at.1)) }
{
    match env_kind(inst.class.env) {
        EnvKind::FlowShop | EnvKind::JobShop => sorted_route(alloc, inst, pieces),
        _ => Ok(None),
    }
}

/// The first operation that lacks work.
pub(crate) fn swept_work(
    alloc: Global,
    inst: &Instance,
    unit: i128,
    pieces: &[Piece],
) -> Result<Option<(u32, u32)>, NoMemory>
    requires measured { AreMeasurable inst.now pieces.now }
    requires small { AreSmallTimes inst.now unit }
    ensures none { IfOk result (λ r. IsNone r → AreWorked inst.now unit pieces.now) }
    ensures some { IfOk result (λ r. IfSome r (λ at. IsFirstUnworked inst.now unit pieces.now at.0 at.1)) }
{
    let sorted = by_job(alloc, pieces)?;
    Ok(work_in(inst, unit, &sorted))
}
