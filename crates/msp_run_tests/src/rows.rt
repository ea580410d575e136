// Each carrying row once: a generated instance goes down it, and a schedule of the lower instance comes back.
ghost use Rattle.std.specs.Prelude.{pos, ◌≤ℤ◌, IsTrue, IsSome, IfOk, All};
ghost use Rattle.msp_instance.specs.Conditions.{Inner};
ghost use Rattle.msp_pieces.specs.Cost.{IsSolution};
ghost use Rattle.msp_pieces.specs.Feasible.{Feasible};
ghost use Rattle.msp_pieces.specs.Within.{Within};
ghost use Rattle.msp_table.specs.Rows.{carries, goes_of};
ghost use Rattle.msp_route.specs.Bounds.{IsSized, EndsBy};
ghost use Rattle.msp_route.specs.declared.bounds.TheConstants.{GREATEST_ANSWER_MOMENT};
ghost use Rattle.msp_carry.specs.Carried.{IsChain};

use msp_carry::{bring, carry};
use msp_class::{Class, EnvKind, List, NoMemory, env_kind, is_shop};
use msp_gen::generate;
use msp_instance::{Instance, Need};
use msp_name::parse;
use msp_route::GREATEST_ANSWER_MOMENT;
use msp_schedule::{
    Frac, GREATEST_CARRIED_UNIT, MOST_PIECES, Piece, Schedule, Solution, cost, first_break,
};
use msp_table::{Row, carries, goes};
use std::alloc::Global;
use std::process::Abort;

/// A row, a class to which it applies, how many jobs are drawn from which seed, and what the schedule that comes back costs: its
/// numerator and denominator.
type Journey = (u8, &'static str, u8, u8, (i128, i128));

/// Rows that change the order of the jobs, their release dates, their times or the criterion.
const JOBS: &[Journey] = &[
    (1, "1||sumwT", 5, 1, (4926, 1)),
    (2, "P|chains|sumC", 4, 2, (195, 1)),
    (3, "P2|chains|sumwC", 6, 4, (65372, 1)),
    (4, "Q|intree|Lmax", 6, 18, (1, 3)),
    (5, "R2|outtree|sumT", 5, 5, (72, 1)),
    (6, "O2||sumwU", 4, 1, (64, 1)),
    (7, "F3|p=1|sumC", 5, 1, (90, 1)),
    (8, "P3||Cmax", 4, 7, (220, 1)),
    (9, "1|prec,r|Lmax", 5, 2, (758, 1)),
    (10, "P2||sumC", 5, 8, (900, 1)),
    (11, "R||sumC", 6, 3, (1500, 1)),
    (12, "F2|chains|sumwC", 4, 5, (76244, 1)),
    (13, "Q2|r|sumT", 5, 4, (9751, 6)),
    (14, "J|r|sumU", 6, 19, (3, 1)),
];

/// Rows between parallel machines.
const MACHINES: &[Journey] = &[
    (17, "1|outtree,r|sumwC", 5, 2, (263205, 1)),
    (18, "P2|prec|fmax", 6, 2, (2255, 1)),
    (19, "P3|pmtn|Cmax", 5, 3, (168, 1)),
    (20, "P2|intree|sumwC", 6, 4, (65372, 1)),
    (21, "P|r|fmax", 5, 5, (6627, 1)),
    (22, "Q2|pmtn|sumT", 4, 2, (59, 2)),
    (23, "P2|chains|sumwU", 5, 38, (18, 1)),
    (24, "P|r|Lmax", 6, 8, (1021, 1)),
    (25, "R2||sumwT", 4, 9, (6496, 1)),
    (26, "Q|prec,r|fmax", 5, 10, (32715, 4)),
    (27, "Q2|r|sumwT", 5, 11, (66267, 2)),
];

/// Rows into shops and between them.
const SHOPS: &[Journey] = &[
    (28, "1|r|Lmax", 4, 53, (-45, 1)),
    (29, "1|prec|sumwC", 5, 2, (26177, 1)),
    (30, "F2|r|sumT", 4, 3, (140, 1)),
    (31, "O2|chains|fmax", 5, 2, (2085, 1)),
    (32, "1|p=1|sumwU", 6, 2, (52, 1)),
    (33, "1|outtree|Lmax", 5, 6, (84, 1)),
    (34, "1|r|sumwT", 4, 7, (136438, 1)),
    (35, "F2|prec|sumwC", 5, 8, (157219, 1)),
    (36, "F3|r|fmax", 4, 9, (5587, 1)),
    (37, "O2||Lmax", 5, 10, (88, 1)),
    (38, "O3|chains|sumT", 3, 11, (158, 1)),
    (39, "F2|r|sumwC", 4, 3, (133712, 1)),
    (40, "F|chains|sumwT", 5, 3, (58578, 1)),
    (41, "J2|n<=2|Lmax", 5, 3, (265, 1)),
    (42, "J2|r,n<=2|sumwU", 6, 14, (251, 1)),
    (43, "J2|prec|sumC", 4, 5, (1259, 1)),
    (44, "J|n<=2|fmax", 5, 6, (1338, 1)),
];

/// Rows that reverse schedules, cut jobs or join their pieces, exchange times and weights, or make equal times general or 1.
const TURNS: &[Journey] = &[
    (45, "P|intree|Cmax", 5, 2, (124, 1)),
    (46, "O3|outtree|Cmax", 4, 2, (564, 1)),
    (47, "Q2|chains,r|Cmax", 5, 3, (1979, 2)),
    (48, "P|intree|Lmax", 6, 4, (-61, 1)),
    (49, "1|pmtn,prec|sumwT", 5, 5, (756, 1)),
    (50, "1||fmax", 6, 6, (1467, 1)),
    (51, "1|intree|sumwC", 5, 7, (43770, 1)),
    (52, "1|outtree|sumwC", 6, 8, (72497, 1)),
    (53, "Q|r,p=p|sumwT", 4, 9, (90325, 2)),
    (54, "J2|p=p|sumwC", 4, 2, (9810, 1)),
];

/// The unit of the lower schedules: each speed of a generated instance divides it.
const UNIT: i128 = 12;

/// The part of an operation that a piece does.
#[derive(Clone, Copy)]
enum Share {
    Whole,
    First,
    Rest,
}

/// Pieces one after another, and the moment at which the last one ends.
#[derive(Drop)]
struct Line {
    pieces: Vec<Piece>,
    moment: i128,
}

/// The time over the unit.
fn scaled(time: u64) -> i128 {
    UNIT * i128::from(time)
}

fn share_of(length: i128, share: Share) -> i128 {
    match share {
        Share::Whole => length,
        Share::First => length / 2,
        Share::Rest => length.saturating_sub(length / 2),
    }
}

/// Puts a piece, which is given from moment 0 on, behind the others: a time of 1 after the last one and after the release date.
fn put(rt: &impl Abort, line: &mut Line, release: u64, piece: Piece) {
    let from = line.moment.max(scaled(release)).saturating_add(UNIT);
    let to = from.saturating_add(piece.to);
    line.pieces
        .push(Piece { from, to, ..piece })
        .expect(rt, "memory");
    line.moment = to;
}

/// The length of the operation on the machine, over the unit.
fn length_on(inst: &Instance, needs: &[Need], op: u32, machine: u32) -> i128 {
    let at = match env_kind(inst.class.env) {
        EnvKind::Unrelated => machine,
        _ => op,
    };
    let time = match needs.get(at as usize) {
        Some(need) => need.time,
        None => 0,
    };
    let speed = match inst.speeds.get(machine as usize) {
        Some(speed) => *speed,
        None => 1,
    };
    scaled(time) / i128::from(speed.max(1))
}

/// Puts the operations of the job on the machines that it needs.
fn put_route(rt: &impl Abort, line: &mut Line, inst: &Instance, job: u32, share: Share) {
    let data = inst.jobs.get(job as usize).expect(rt, "a job");
    let needs = data.needs.as_slice();
    for at in 0..needs.len() {
        if needs[at].time > 0 {
            let op = u32::try_from(at).expect(rt, "an operation");
            let machine = needs[at].machine;
            let piece = Piece {
                job,
                op,
                machine,
                from: 0,
                to: share_of(length_on(inst, needs, op, machine), share),
            };
            put(rt, line, data.release, piece);
        }
    }
}

/// Puts the one operation of the job on a parallel machine, the jobs in turn on all machines.
fn put_single(rt: &impl Abort, line: &mut Line, inst: &Instance, job: u32, share: Share) {
    let data = inst.jobs.get(job as usize).expect(rt, "a job");
    let machine = job % inst.machines.max(1);
    let piece = Piece {
        job,
        op: 0,
        machine,
        from: 0,
        to: share_of(length_on(inst, data.needs.as_slice(), 0, machine), share),
    };
    put(rt, line, data.release, piece);
}

/// Puts a share of each job, from the first to the last or from the last to the first.
fn put_jobs(rt: &impl Abort, line: &mut Line, inst: &Instance, share: Share, backward: bool) {
    let jobs = u32::try_from(inst.jobs.len()).expect(rt, "few jobs");
    let last = jobs.saturating_sub(1);
    for k in 0..=last {
        let job = if backward { last - k } else { k };
        if is_shop(inst.class.env) {
            put_route(rt, line, inst, job, share);
        } else {
            put_single(rt, line, inst, job, share);
        }
    }
}

/// A schedule of the instance, one job after another along the arcs. Where jobs may be cut and there are no arcs, the first half of each
/// is done first, and then the rest in the order reversed.
fn lined_up(rt: &impl Abort, alloc: Global, inst: &Instance) -> Schedule {
    let mut line = Line {
        pieces: Vec::new(alloc),
        moment: 0,
    };
    let arcs = inst.arcs.as_slice();
    if inst.class.cut && arcs.is_empty() {
        put_jobs(rt, &mut line, inst, Share::First, false);
        put_jobs(rt, &mut line, inst, Share::Rest, true);
    } else {
        let backward = arcs.iter().any(|a| a.after < a.before);
        put_jobs(rt, &mut line, inst, Share::Whole, backward);
    }
    Schedule {
        unit: UNIT,
        pieces: List::from_vec(line.pieces),
    }
}

/// Whether all pieces end early enough to be brought back.
fn are_early(pieces: &[Piece]) -> bool
    ensures { IsTrue result → All (λ p. (pos 0 ≤ℤ p.from) × (p.from ≤ℤ p.to) × (p.to ≤ℤ GREATEST_ANSWER_MOMENT)) pieces.now }
{
    pieces.iter().all(|p| 0 <= p.from && p.from <= p.to && p.to <= GREATEST_ANSWER_MOMENT)
}

/// Whether the schedule keeps the bounds of one that is brought back.
#[tactic(auto, using(crate::proofs::RowJourneys::small_within, crate::proofs::RowJourneys::small_sized))]
pub fn is_small(inst: &Instance, s: &Schedule) -> bool
    ensures within { IsTrue result → Within inst.now s.now }
    ensures sized { IsTrue result → IsSized inst.now s.now }
    ensures ends { IsTrue result → EndsBy GREATEST_ANSWER_MOMENT s.now }
{
    1 <= s.unit
        && s.unit <= GREATEST_CARRIED_UNIT
        && s.pieces.len() <= MOST_PIECES
        && are_early(s.pieces.as_slice())
}

/// Whether the schedule is feasible. On unrelated machines a class of cut jobs is not tried.
fn is_feasible(inst: &Instance, s: &Schedule) -> bool
    requires inner { Inner inst.now }
    requires within { Within inst.now s.now }
    ensures { IsTrue result → Feasible inst.now s.now }
{
    if inst.class.cut && env_kind(inst.class.env) == EnvKind::Unrelated {
        return false;
    }
    first_break(inst, s).is_none()
}

/// The schedule with its cost. It has to be feasible, and within the bounds of one that is brought back.
pub fn with_cost(rt: &impl Abort, inst: &Instance, schedule: Schedule) -> Solution
    requires { Inner inst.now }
    ensures solution { IsSolution inst.now result }
    ensures sized { IsSized inst.now result.schedule }
    ensures ends { EndsBy GREATEST_ANSWER_MOMENT result.schedule }
{
    assert!(rt; is_small(inst, &schedule), "a schedule is too large");
    assert!(rt; is_feasible(inst, &schedule), "a schedule is not feasible");
    let cost = cost(inst, &schedule);
    Solution { schedule, cost }
}

/// The row alone as a chain.
#[tactic(auto, using(crate::proofs::RowJourneys::row_chain))]
fn chain_of(alloc: Global, inst: &Instance, row: Row) -> Result<List<Row>, NoMemory>
    requires carries { IsTrue (carries row) }
    requires applies { IsSome (goes_of row inst.now.class) }
    ensures { IfOk result (λ rows. IsChain inst.now rows) }
{
    let mut rows = List::new(alloc);
    rows.put(row)?;
    Ok(rows)
}

/// The chain of the row of the number, which has to carry the instance.
pub fn row_over(rt: &impl Abort, alloc: Global, inst: &Instance, number: u8) -> List<Row>
    ensures { IsChain inst.now result }
{
    let row = Row::new(number).expect(rt, "a row");
    match goes(row, inst.class) {
        Some(_) if carries(row) => chain_of(alloc, inst, row).expect(rt, "memory"),
        _ => panic!(rt; "the row does not carry the instance"),
    }
}

/// The cost of the schedule that comes back over the row.
fn cost_of_journey(rt: &impl Abort, alloc: Global, inst: &Instance, number: u8) -> Frac
    requires { Inner inst.now }
{
    let rows = row_over(rt, alloc, inst, number);
    let lower = carry(alloc, inst, &rows).expect(rt, "memory");
    let below = with_cost(rt, &lower, lined_up(rt, alloc, &lower));
    let above = bring(alloc, inst, &rows, below).expect(rt, "memory");
    assert!(rt;
        is_feasible(inst, &above.schedule),
        "what comes back is not feasible"
    );
    assert!(rt;
        above.cost == cost(inst, &above.schedule),
        "what comes back has another cost"
    );
    above.cost
}

pub fn class_of(rt: &impl Abort, name: &str) -> Class {
    let text = name.as_bytes();
    assert!(rt; text.len() <= 40);
    parse(text).ok().expect(rt, "a class")
}

/// The instance of the class that is drawn from the seed.
#[tactic(auto, using(crate::proofs::RowJourneys::drawn_rules))]
fn drawn(rt: &impl Abort, alloc: Global, class: Class, jobs: u8, seed: u8) -> Instance
    ensures { Inner result }
{
    generate(alloc, class, u32::from(jobs), u32::from(seed)).expect(rt, "memory")
}

/// The schedule of the journey comes back at its cost.
fn comes_back(rt: &impl Abort, alloc: Global, journey: &Journey) {
    let (row, name, jobs, seed, cost) = *journey;
    let inst = drawn(rt, alloc, class_of(rt, name), jobs, seed);
    let found = cost_of_journey(rt, alloc, &inst, row);
    assert!(rt; (found.num, found.den) == cost, "row {row}");
}

/// Each journey's schedule comes back at its cost.
fn come_back(rt: &impl Abort, alloc: Global, journeys: &[Journey]) {
    for journey in journeys {
        comes_back(rt, alloc, journey);
    }
}

#[test]
fn jobs_come_back(rt: HostRuntime) {
    come_back(&rt, rt.alloc(), JOBS);
}

#[test]
fn parallel_machines_come_back(rt: HostRuntime) {
    come_back(&rt, rt.alloc(), MACHINES);
}

#[test]
fn shops_come_back(rt: HostRuntime) {
    come_back(&rt, rt.alloc(), SHOPS);
}

#[test]
fn turned_schedules_come_back(rt: HostRuntime) {
    come_back(&rt, rt.alloc(), TURNS);
}
