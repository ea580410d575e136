// Whether an operation gets its work.
ghost use Rattle.std.specs.Prelude.{◌≡◌, ◌≢◌, ◌<◌, ◌≤◌, ◌↔◌, [], ◌∷◌, pos, ◌*ℤ◌, length, map, ◌==◌, ◌&&◌, All, IsTrue, IfNone, IfSome, slice_index_or, if◌then◌else◌};
ghost use Rattle.msp_class.specs.declared.sizes.TheConstants.{MOST_PIECES, GREATEST_SPEED};
ghost use Rattle.msp_instance.specs.Instance.{job_at, need_at};
ghost use Rattle.msp_class.specs.declared.environments.EnvKind.TheVariants.{Unrelated};
ghost use Rattle.msp_class.specs.Env.{kind_of};
ghost use Rattle.msp_instance.specs.Conditions.{LiesWithin, Inner};
ghost use Rattle.msp_pieces.specs.Feasible.{HasOperation, HasPlace, IsWholeWork, total, work_of};
ghost use Rattle.msp_schedule.specs.Works.{AreMeasurable, GetsWorkAmong, need_of, measured_by};
ghost use Rattle.msp_pieces.specs.Within.{IsMoment, greatest_scaled, AreSmallTimes, greatest_length, greatest_work};
ghost use Rattle.msp_pieces.specs.declared.Piece.{Piece as PieceValue};
ghost use Rattle.msp_pieces.specs.Piece.{length_of};
ghost use Rattle.msp_schedule.specs.Breaks.{pieces_among};

use msp_class::{EnvKind, env_kind};
use msp_instance::Instance;
use msp_pieces::{Piece, product};

fn is_of(piece: &Piece, job: u32, op: u32) -> bool
    ensures { result ≡ ((piece.now.job == job) && (piece.now.op == op)) }
{
    piece.job == job && piece.op == op
}

/// The only piece of the operation.
fn sole_piece(pieces: &[Piece], job: u32, op: u32) -> Option<Piece>
    ensures none { IfNone result ((p : PieceValue) → pieces_among pieces.now job op ≢ p ∷ []) }
    ensures some { IfSome result (λ p. pieces_among pieces.now job op ≡ p ∷ []) }
{
    let mut sole = None;
    for piece in pieces {
        if is_of(piece, job, op) {
            if sole.is_some() {
                return None;
            }
            sole = Some(*piece);
        }
    }
    sole
}

fn length_at(piece: &Piece) -> i128
    requires from { IsMoment piece.now.from }
    requires to { IsMoment piece.now.to }
    ensures { result ≡ length_of piece.now }
{
    piece.to - piece.from
}

/// The machine's speed.
fn speed_of(inst: &Instance, machine: u32) -> u64
    requires { machine < length inst.now.speeds }
    ensures { result ≡ slice_index_or inst.now.speeds machine 0 }
{
    inst.speeds.as_slice()[machine as usize]
}

/// The time of the need of this number.
fn time_of(inst: &Instance, job: u32, at: u32) -> u64
    requires job { job < length inst.now.jobs }
    requires need { at < length (job_at inst.now job).needs }
    ensures { result ≡ (need_at inst.now job at).time }
{
    inst.jobs.as_slice()[job as usize].needs.as_slice()[at as usize].time
}

/// Whether the length is this time over the unit.
fn takes(length: i128, unit: i128, time: u64) -> bool
    requires { LiesWithin greatest_scaled (unit *ℤ pos time) }
    ensures { IsTrue result ↔ (length ≡ unit *ℤ pos time) }
{
    length == product(unit, i128::from(time))
}

/// The length times the speed.
fn sped(length: i128, speed: u64) -> i128
    requires length { LiesWithin greatest_length length }
    requires speed { speed ≤ GREATEST_SPEED }
    ensures value { result ≡ length *ℤ pos speed }
    ensures size { LiesWithin greatest_work result }
{
    product(length, i128::from(speed))
}

/// How long the piece lasts, on uniform machines times the machine's speed.
fn measured(inst: &Instance, piece: &Piece) -> i128
    requires inner { Inner inst.now }
    requires place { HasPlace inst.now piece.now }
    requires from { IsMoment piece.now.from }
    requires to { IsMoment piece.now.to }
    ensures value { result ≡ measured_by (kind_of inst.now.class.env) inst.now piece.now }
    ensures size { LiesWithin greatest_work result }
{
    match env_kind(inst.class.env) {
        EnvKind::Uniform => sped(length_at(piece), speed_of(inst, piece.machine)),
        _ => length_at(piece),
    }
}

/// What the piece adds to its operation.
fn work_at(inst: &Instance, piece: &Piece) -> i128
    requires kind { kind_of inst.now.class.env ≢ Unrelated }
    requires inner { Inner inst.now }
    requires place { HasPlace inst.now piece.now }
    requires from { IsMoment piece.now.from }
    requires to { IsMoment piece.now.to }
    ensures value { result ≡ work_of (kind_of inst.now.class.env) inst.now piece.now }
    ensures size { LiesWithin greatest_work result }
{
    measured(inst, piece)
}

/// What the piece adds to the operation: nothing where it is of another one.
fn added(inst: &Instance, piece: &Piece, job: u32, op: u32) -> i128
    requires kind { kind_of inst.now.class.env ≢ Unrelated }
    requires inner { Inner inst.now }
    requires place { HasPlace inst.now piece.now }
    requires from { IsMoment piece.now.from }
    requires to { IsMoment piece.now.to }
    ensures value { result ≡ (if (piece.now.job == job) && (piece.now.op == op) then work_of (kind_of inst.now.class.env) inst.now piece.now else pos 0) }
    ensures size { LiesWithin greatest_work result }
{
    if is_of(piece, job, op) {
        work_at(inst, piece)
    } else {
        0
    }
}

/// What the pieces of the operation add up to.
fn work_done(inst: &Instance, pieces: &[Piece], job: u32, op: u32) -> i128
    requires kind { kind_of inst.now.class.env ≢ Unrelated }
    requires inner { Inner inst.now }
    requires few { length pieces.now ≤ MOST_PIECES }
    requires place { All (HasPlace inst.now) pieces.now }
    requires moments { All (λ p. IsMoment p.from × IsMoment p.to) pieces.now }
    ensures { result ≡ total (map (work_of (kind_of inst.now.class.env) inst.now) (pieces_among pieces.now job op)) }
{
    let mut sum: i128 = 0;
    for piece in pieces {
        sum += added(inst, piece, job, op);
    }
    sum
}

/// The number of the need that says how long the piece's operation takes: on unrelated machines that of its machine.
fn need_of(kind: EnvKind, piece: &Piece) -> u32
    ensures { result ≡ need_of kind piece.now }
{
    match kind {
        EnvKind::Unrelated => piece.machine,
        _ => piece.op,
    }
}

/// Whether the piece is the whole operation.
fn is_whole_work(inst: &Instance, unit: i128, piece: &Piece) -> bool
    requires inner { Inner inst.now }
    requires small { AreSmallTimes inst.now unit }
    requires place { HasPlace inst.now piece.now }
    requires from { IsMoment piece.now.from }
    requires to { IsMoment piece.now.to }
    ensures { IsTrue result ↔ IsWholeWork (kind_of inst.now.class.env) inst.now unit piece.now }
{
    let at = need_of(env_kind(inst.class.env), piece);
    takes(measured(inst, piece), unit, time_of(inst, piece.job, at))
}

/// Whether the operation gets its work.
pub(crate) fn gets_work(inst: &Instance, unit: i128, pieces: &[Piece], job: u32, op: u32) -> bool
    requires measured { AreMeasurable inst.now pieces.now }
    requires small { AreSmallTimes inst.now unit }
    requires job { job < length inst.now.jobs }
    requires operation { HasOperation (kind_of inst.now.class.env) inst.now job op }
    ensures { IsTrue result ↔ GetsWorkAmong inst.now unit pieces.now job op }
{
    if inst.class.cut {
        return takes(
            work_done(inst, pieces, job, op),
            unit,
            time_of(inst, job, op),
        );
    }
    match sole_piece(pieces, job, op) {
        Some(piece) => is_whole_work(inst, unit, &piece),
        None => false,
    }
}
