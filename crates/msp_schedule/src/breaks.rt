// The first condition of a feasible schedule that a schedule breaks.
ghost use Rattle.std.specs.Prelude.{◌≡◌, ◌≢◌, ℕ, ◌<◌, ◌≤◌, ◌↔◌, slice_index_or, pos, ◌*ℤ◌, ◌≤ℤ◌, ◌<ℤ◌, length, All, IsTrue, IsNone, IfSome};
ghost use Rattle.msp_class.specs.declared.sizes.TheConstants.{MOST_ARCS, MOST_PIECES};
ghost use Rattle.msp_class.specs.Env.{IsCutOnUnrelated, kind_of};
ghost use Rattle.msp_instance.specs.declared.Instance.{Instance as InstanceValue};
ghost use Rattle.msp_instance.specs.Instance.{job_at, no_need};
ghost use Rattle.msp_pieces.specs.Feasible.{Feasible, HasOperation, HasPlace, MayRun};
ghost use Rattle.msp_instance.specs.Conditions.{LiesWithin, Inner};
ghost use Rattle.msp_pieces.specs.Within.{IsMoment, Within, greatest_scaled, AreSmallReleases};
ghost use Rattle.msp_schedule.specs.Begins.{IsEarlierEnd};
ghost use Rattle.msp_schedule.specs.Breaks.{IsEmpty, IsEarly, KeepsArc, KeepsRoute, IsDecision, IsFirstBreak, IsFirstPiece, IsReleased, IsFirstLostArc};

use crate::overlaps::{Lane, first_overlap};
use crate::routes::{first_out_of_route, first_work};
use msp_class::{EnvKind, env_kind};
use msp_instance::{Arc, Instance, Need};
use msp_pieces::{Piece, Schedule, product};

/// A broken condition of a feasible schedule, and where it is broken. Pieces, jobs, operations and arcs are numbered from 0.
#[derive(Clone, Copy, PartialEq, Eq)]
pub enum Break {
    /// The piece does not last.
    Span { piece: u32 },
    /// The piece's job has no such operation with work to do, or the machine may not run it.
    Place { piece: u32 },
    /// On one machine the second piece begins before the first one ends.
    Machine { first: u32, second: u32 },
    /// The same for two pieces of one job.
    Job { first: u32, second: u32 },
    /// The piece begins before its job's release date.
    Release { piece: u32 },
    /// A piece of the arc's job before ends after a piece of its job after begins.
    Arc { at: u32 },
    /// A piece of the operation begins before a piece of an earlier operation of the job ends.
    Route { job: u32, op: u32 },
    /// The operation does not get its work.
    Work { job: u32, op: u32 },
}

pub(crate) fn first_empty(pieces: &[Piece]) -> Option<u32>
    requires few { length pieces.now ≤ MOST_PIECES }
    ensures none { IsNone result → All (λ p. p.from <ℤ p.to) pieces.now }
    ensures some { IfSome result (λ k. IsFirstPiece IsEmpty pieces.now k) }
{
    for at in 0..pieces.len() {
        if pieces[at].from >= pieces[at].to {
            return Some(at as u32);
        }
    }
    None
}

/// Whether the operation is one of the needs and takes time.
fn takes_time(needs: &[Need], op: u32) -> bool
    ensures { IsTrue result ↔ ((op < length needs.now) × ((slice_index_or needs.now op no_need).time ≢ 0)) }
{
    match needs.get(op as usize) {
        Some(need) => need.time != 0,
        None => false,
    }
}

/// Whether the operation is one of the needs and takes time.
pub(crate) fn has_operation(kind: EnvKind, needs: &[Need], op: u32) -> bool
    ensures { (i : InstanceValue) (j : ℕ) → needs.now ≡ (job_at i j).needs → IsTrue result ↔ HasOperation kind i j op }
{
    match kind {
        EnvKind::Identical | EnvKind::Uniform | EnvKind::Unrelated => op == 0,
        EnvKind::OpenShop | EnvKind::FlowShop | EnvKind::JobShop => takes_time(needs, op),
    }
}

/// The machine of the need, where there is one of that number.
fn machine_of(needs: &[Need], op: u32) -> u32
    ensures { result ≡ (slice_index_or needs.now op no_need).machine }
{
    match needs.get(op as usize) {
        Some(need) => need.machine,
        None => 0,
    }
}

/// Whether the machine may run the operation.
fn may_run(inst: &Instance, needs: &[Need], op: u32, machine: u32) -> bool
    ensures { (j : ℕ) → needs.now ≡ (job_at inst.now j).needs → IsTrue result ↔ MayRun (kind_of inst.now.class.env) inst.now j op machine }
{
    match env_kind(inst.class.env) {
        EnvKind::Identical | EnvKind::Uniform | EnvKind::Unrelated => machine < inst.machines,
        EnvKind::OpenShop | EnvKind::FlowShop | EnvKind::JobShop => machine
            == machine_of(needs, op),
    }
}

fn has_place(inst: &Instance, piece: &Piece) -> bool
    ensures { IsTrue result ↔ HasPlace inst.now piece.now }
{
    let jobs = inst.jobs.as_slice();
    if jobs.len() <= piece.job as usize {
        return false;
    }
    let needs = jobs[piece.job as usize].needs.as_slice();
    has_operation(env_kind(inst.class.env), needs, piece.op)
        && may_run(inst, needs, piece.op, piece.machine)
}

pub(crate) fn first_misplaced(inst: &Instance, pieces: &[Piece]) -> Option<u32>
    requires few { length pieces.now ≤ MOST_PIECES }
    ensures none { IsNone result → All (HasPlace inst.now) pieces.now }
    ensures some { IfSome result (λ k. IsFirstPiece (λ p. ¬ HasPlace inst.now p) pieces.now k) }
{
    for at in 0..pieces.len() {
        if !has_place(inst, &pieces[at]) {
            return Some(at as u32);
        }
    }
    None
}

fn release_of(inst: &Instance, job: u32) -> u64
    requires { job < length inst.now.jobs }
    ensures { result ≡ (job_at inst.now job).release }
{
    inst.jobs.as_slice()[job as usize].release
}

fn is_early(inst: &Instance, unit: i128, piece: &Piece) -> bool
    requires job { piece.now.job < length inst.now.jobs }
    requires small { LiesWithin greatest_scaled (unit *ℤ pos (job_at inst.now piece.now.job).release) }
    ensures { IsTrue result ↔ IsEarly inst.now unit piece.now }
{
    piece.from < product(unit, i128::from(release_of(inst, piece.job)))
}

pub(crate) fn first_early(inst: &Instance, unit: i128, pieces: &[Piece]) -> Option<u32>
    requires few { length pieces.now ≤ MOST_PIECES }
    requires jobs { All (λ p. p.job < length inst.now.jobs) pieces.now }
    requires small { AreSmallReleases inst.now unit }
    ensures none { IsNone result → All (IsReleased inst.now unit) pieces.now }
    ensures some { IfSome result (λ k. IsFirstPiece (IsEarly inst.now unit) pieces.now k) }
{
    for at in 0..pieces.len() {
        if is_early(inst, unit, &pieces[at]) {
            return Some(at as u32);
        }
    }
    None
}

/// Whether no piece of the job begins before the moment.
fn begins_from(pieces: &[Piece], job: u32, moment: i128) -> bool
    ensures { IsTrue result ↔ All (λ q. q.job ≡ job → moment ≤ℤ q.from) pieces.now }
{
    pieces.iter().all(|q| q.job != job || moment <= q.from)
}

fn keeps_arc(pieces: &[Piece], arc: Arc) -> bool
    ensures { IsTrue result ↔ KeepsArc pieces.now arc }
{
    pieces.iter().all(|p| p.job != arc.before || begins_from(pieces, arc.after, p.to))
}

fn first_arc(pieces: &[Piece], arcs: &[Arc]) -> Option<u32>
    requires few { length arcs.now ≤ MOST_ARCS }
    ensures none { IsNone result → All (KeepsArc pieces.now) arcs.now }
    ensures some { IfSome result (λ k. IsFirstLostArc pieces.now arcs.now k) }
{
    for at in 0..arcs.len() {
        if !keeps_arc(pieces, arcs[at]) {
            return Some(at as u32);
        }
    }
    None
}

/// Whether no piece of the operation of the job begins before the moment.
fn operation_begins_from(pieces: &[Piece], job: u32, op: u32, moment: i128) -> bool
    ensures { IsTrue result ↔ All (λ q. q.job ≡ job → q.op ≡ op → moment ≤ℤ q.from) pieces.now }
{
    pieces
        .iter()
        .all(|q| q.job != job || q.op != op || moment <= q.from)
}

/// Whether the piece is one of the job's operations before this one.
fn is_earlier(piece: &Piece, job: u32, op: u32) -> bool
    ensures { IsTrue result ↔ ((piece.now.job ≡ job) × (piece.now.op < op)) }
{
    piece.job == job && piece.op < op
}

/// The last end of the pieces of the job's operations before this one, and 0 where there is none.
fn earlier_end(pieces: &[Piece], job: u32, op: u32) -> i128
    ensures { IsEarlierEnd pieces.now job op result }
{
    let mut end = 0;
    for p in pieces {
        if is_earlier(p, job, op) {
            end = p.to.max(end);
        }
    }
    end
}

pub(crate) fn keeps_route(pieces: &[Piece], job: u32, op: u32) -> bool
    requires moments { All (λ p. IsMoment p.from × IsMoment p.to) pieces.now }
    ensures { IsTrue result ↔ KeepsRoute pieces.now job op }
{
    operation_begins_from(pieces, job, op, earlier_end(pieces, job, op))
}

fn found(inst: &Instance, s: &Schedule) -> Option<Break>
    requires inner { Inner inst.now }
    requires within { Within inst.now s.now }
    requires decided { ¬ IsCutOnUnrelated inst.now.class }
    ensures { IsDecision inst.now s.now result }
{
    let pieces = s.pieces.as_slice();
    if let Some(piece) = first_empty(pieces) {
        return Some(Break::Span { piece });
    }
    if let Some(piece) = first_misplaced(inst, pieces) {
        return Some(Break::Place { piece });
    }
    if let Some((first, second)) = first_overlap(Lane::Machine, pieces) {
        return Some(Break::Machine { first, second });
    }
    if let Some((first, second)) = first_overlap(Lane::Job, pieces) {
        return Some(Break::Job { first, second });
    }
    if let Some(piece) = first_early(inst, s.unit, pieces) {
        return Some(Break::Release { piece });
    }
    if let Some(at) = first_arc(pieces, inst.arcs.as_slice()) {
        return Some(Break::Arc { at });
    }
    if let Some((job, op)) = first_out_of_route(inst, pieces) {
        return Some(Break::Route { job, op });
    }
    match first_work(inst, s.unit, pieces) {
        Some((job, op)) => Some(Break::Work { job, op }),
        None => None,
    }
}

/// The first condition of a feasible schedule that the schedule breaks, in the order of `Break`. No memory is taken, and all pairs of
/// pieces are compared. Whether pieces of a cut class on unrelated machines do their work is not decided.
pub fn first_break(inst: &Instance, s: &Schedule) -> Option<Break>
    requires inner { Inner inst.now }
    requires within { Within inst.now s.now }
    requires decided { ¬ IsCutOnUnrelated inst.now.class }
    ensures none { IsNone result ↔ Feasible inst.now s.now }
    ensures first { IfSome result (IsFirstBreak inst.now s.now) }
{
    found(inst, s)
}
