// Each solver in the time of a test: two hundred and four hundred drawn jobs of each class, four hundred blocks.
use crate::calls::{calling, gives, outcome};
use std::alloc::Global;
use std::process::Abort;

/// Each class that has a solver, with it: jobs of each are drawn.
pub const DRAWN: &[(&str, &str)] = &[
    ("1||sumwC", "smith"),
    ("1|prec|fmax", "lawler"),
    ("1||sumU", "moore"),
    ("1|outtree|sumwC", "horn"),
    ("1|pmtn,prec,r|fmax", "blocks"),
    ("1|prec,r,p=1|fmax", "unit-blocks"),
    ("1|pmtn,r|sumC", "shortest"),
    ("P|pmtn|Cmax", "wrap"),
    ("P|intree,p=1|Cmax", "levels"),
    ("Q||sumC", "uniform"),
    ("R||sumC", "unrelated"),
    ("P|r,p=1|sumwT", "slots-late"),
    ("P|r,p=1|sumwU", "slots-count"),
    ("F2||Cmax", "johnson"),
    ("J2|n<=2|Cmax", "jackson"),
    ("O2||Cmax", "open2"),
    ("O|pmtn|Cmax", "open-cut"),
    ("Q|pmtn|Cmax", "uniform-cut"),
    ("P2|prec,p=1|Cmax", "lexical"),
    ("1||sumwU", "late-table"),
    ("P|r,p=1|Lmax", "search"),
    ("R|intree,p=p|fmax", "tree-due"),
    ("R2|prec,p=p|fmax", "pair-due"),
    ("P|pmtn|sumC", "cut-sum"),
    ("P|pmtn,p=p|sumwC", "cut-weights"),
    ("O|p=1|sumwC", "open-weights"),
    ("O|pmtn,p=p|sumwC", "cut-open-weights"),
    ("P|pmtn|Lmax", "stairs"),
    ("Q|p=p|fmax", "places-most"),
    ("Q|p=p|sumwT", "places-late"),
    ("Q|p=p|sumwU", "places-count"),
    ("P|outtree,p=1|sumC", "levels-sum"),
    ("1|prec,r,p=p|sumC", "equal-heads"),
    ("J2|pmtn,n<=2|Cmax", "jackson-cut"),
    ("F|r,p=1|sumwT", "lines-late"),
    ("F|r,p=1|sumwU", "lines-count"),
];

/// Whether the trial of so many jobs answers status 0 and a report that names the solver, with no row before it.
fn tries(rt: &impl Abort, alloc: Global, class: &str, solver: &str, jobs: &str) -> bool {
    let seen = outcome(rt, alloc, &calling(&["trial", class, jobs, "1"], b""));
    let front = format!(in alloc; "class {class}\njobs {jobs}\nseed 1\nsolver {solver}\nrows 0\n");
    let front = front.expect(rt, "memory");
    seen.status == 0 && seen.out.as_slice().starts_with(front.as_bytes())
}

#[test]
fn two_hundred_jobs_of_each_class(rt: HostRuntime) {
    for (class, solver) in DRAWN {
        assert!(rt; tries(&rt, rt.alloc(), class, solver, "200"), "{class}");
    }
}

#[test]
fn four_hundred_jobs_of_each_class(rt: HostRuntime) {
    for (class, solver) in DRAWN {
        assert!(rt; tries(&rt, rt.alloc(), class, solver, "400"), "{class}");
    }
}

const BLOCKS: &[u8] = b"msp 1\nclass 1|pmtn,prec,r|fmax\n";

/// So many jobs that each have a block of their own.
fn apart(rt: &impl Abort, alloc: Global, count: u32) -> Vec<u8> {
    let mut text = BLOCKS.to_vec(alloc).expect(rt, "memory");
    for k in 0..count {
        let begin = 3 * u64::from(k);
        let job = format!(in alloc; "job j{k} p=2 r={begin}\ncurve 1 0\n").expect(rt, "memory");
        text.extend_from_slice(job.as_bytes()).expect(rt, "memory");
    }
    text.extend_from_slice(b"end\n").expect(rt, "memory");
    text
}

/// The answer of the cost, up to its pieces.
fn answer(rt: &impl Abort, alloc: Global, cost: u32) -> Vec<u8> {
    let head = format!(in alloc;
        "start 1|pmtn,prec,r|fmax\nsolver blocks\nschedule\ncost {cost}\nunit 1\n"
    );
    head.expect(rt, "memory").into_bytes()
}

/// Puts the piece of a job, from a moment for a time.
fn put_piece(rt: &impl Abort, alloc: Global, report: &mut Vec<u8>, job: u32, from: u32, time: u8) {
    let to = u64::from(from) + u64::from(time);
    let piece = format!(in alloc; "piece j{job} 1 1 {from} {to}\n").expect(rt, "memory");
    report
        .extend_from_slice(piece.as_bytes())
        .expect(rt, "memory");
}

/// Their schedule: one after another.
fn in_turn(rt: &impl Abort, alloc: Global, count: u32) -> Vec<u8> {
    let mut report = answer(rt, alloc, 1199);
    for k in 0..count {
        put_piece(rt, alloc, &mut report, k, k.wrapping_mul(3), 2);
    }
    report.extend_from_slice(b"end\n").expect(rt, "memory");
    report
}

/// Four hundred jobs, each of which interrupts the one before it and ends before that goes on.
fn nested(rt: &impl Abort, alloc: Global) -> Vec<u8> {
    let mut text = BLOCKS.to_vec(alloc).expect(rt, "memory");
    for k in 0..400_u32 {
        let base = 1000 * u64::from(k);
        let job = format!(in alloc; "job j{k} p=2 r={k}\ncurve 1 {base}\n").expect(rt, "memory");
        text.extend_from_slice(job.as_bytes()).expect(rt, "memory");
    }
    text.extend_from_slice(b"end\n").expect(rt, "memory");
    text
}

/// How their schedule goes on, when the last job is done.
fn put_ends(rt: &impl Abort, alloc: Global, report: &mut Vec<u8>) {
    for k in 0..399_u32 {
        put_piece(
            rt,
            alloc,
            report,
            398_u32.saturating_sub(k),
            k.saturating_add(401),
            1,
        );
    }
}

/// Their schedule: the last job is not interrupted.
fn interrupted(rt: &impl Abort, alloc: Global) -> Vec<u8> {
    let mut report = answer(rt, alloc, 399_401);
    for k in 0..399_u32 {
        put_piece(rt, alloc, &mut report, k, k, 1);
    }
    put_piece(rt, alloc, &mut report, 399, 399, 2);
    put_ends(rt, alloc, &mut report);
    report.extend_from_slice(b"end\n").expect(rt, "memory");
    report
}

/// The instance of the text is solved so.
fn solves(rt: &impl Abort, alloc: Global, text: &[u8], report: &[u8]) {
    assert!(rt; gives(rt, alloc, &calling(&["solve"], text), 0, report, b""));
}

#[test]
fn four_hundred_blocks(rt: HostRuntime) {
    let alloc = rt.alloc();
    solves(
        &rt,
        alloc,
        &apart(&rt, alloc, 400),
        &in_turn(&rt, alloc, 400),
    );
    solves(&rt, alloc, &nested(&rt, alloc), &interrupted(&rt, alloc));
}
