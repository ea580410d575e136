// Each carrying row once over a small instance that is solved by hand: where it leads, and what comes back of the best schedule there.
ghost use Rattle.std.specs.Prelude.{◌≡◌, IsTrue};
ghost use Rattle.msp_carry.specs.Carried.{IsChain, carried};
ghost use Rattle.msp_instance.specs.Conditions.{InClass, Inner};
ghost use Rattle.msp_pieces.specs.Cost.{IsSolution};
ghost use Rattle.msp_route.specs.Bounds.{IsSized, EndsBy};
ghost use Rattle.msp_route.specs.declared.bounds.TheConstants.{GREATEST_ANSWER_MOMENT};

use crate::rows::{row_over, with_cost};
use crate::ways::{JOBS, MACHINES, SHOPS, TURNS, Way};
use msp_carry::{bring, carry};
use msp_class::List;
use msp_file::{Filed, Names, Stated, print_instance, read_instance, read_schedule};
use msp_instance::{Instance, check, forward};
use msp_schedule::{Solution, settle};
use msp_table::Row;
use std::alloc::Global;
use std::process::Abort;

/// The schedule of the text, for the named jobs.
fn stated(rt: &impl Abort, alloc: Global, names: &Names, text: &[u8]) -> Stated {
    assert!(rt; text.len() <= 400);
    read_schedule(alloc, names, text, 1)
        .ok()
        .expect(rt, "a schedule")
}

/// The schedule of the text with its cost, which has to be the stated one.
fn solution_of(
    rt: &impl Abort,
    alloc: Global,
    inst: &Instance,
    names: &Names,
    text: &[u8],
) -> Solution
    requires { Inner inst.now }
    ensures solution { IsSolution inst.now result }
    ensures sized { IsSized inst.now result.schedule }
    ensures ends { EndsBy GREATEST_ANSWER_MOMENT result.schedule }
{
    let stated = stated(rt, alloc, names, text);
    let known = stated.cost;
    let solution = with_cost(rt, inst, stated.schedule);
    assert!(rt;
        solution.cost == known,
        "the lower schedule has another cost"
    );
    solution
}

/// Whether the instance belongs to its class.
fn is_in_class(alloc: Global, inst: &Instance) -> bool
    ensures { IsTrue result → InClass inst.now }
{
    if check(inst).is_err() {
        return false;
    }
    match forward(alloc, inst) {
        Ok(_) => true,
        Err(_) => false,
    }
}

/// Whether the text of the instance, which has to belong to its class, is this one.
fn is_printed(
    rt: &impl Abort,
    alloc: Global,
    instance: Instance,
    names: Names,
    text: &[u8],
) -> bool {
    assert!(rt;
        is_in_class(alloc, &instance),
        "the instance is not in its class"
    );
    assert!(rt; names.len() == instance.jobs.len(), "a job has no name");
    let made = print_instance(alloc, &Filed { instance, names }).expect(rt, "memory");
    made.as_slice() == text
}

/// The schedule in the form in which schedules are printed, with its cost.
fn settled(rt: &impl Abort, inst: &Instance, solution: Solution) -> Solution
    requires inner { Inner inst.now }
    requires solution { IsSolution inst.now solution }
{
    let mut schedule = solution.schedule;
    settle(&mut schedule);
    with_cost(rt, inst, schedule)
}

/// The instance of the text, with the names of its jobs.
#[tactic(auto, using(crate::proofs::RowJourneys::drawn_rules))]
fn read(rt: &impl Abort, alloc: Global, text: &[u8]) -> Filed
    ensures { Inner result.instance }
{
    assert!(rt; text.len() <= 400);
    match read_instance(alloc, text) {
        Ok(filed) => filed,
        Err(_) => panic!(rt; "the text is no instance"),
    }
}

/// Whether what comes back is what is known.
fn is_known(back: &Solution, known: &Stated) -> bool {
    back.cost == known.cost
        && back.schedule.unit == known.schedule.unit
        && back.schedule.pieces.as_slice() == known.schedule.pieces.as_slice()
}

/// Whether the stated schedule comes back.
fn is_stated(rt: &impl Abort, alloc: Global, names: &Names, back: &Solution, text: &[u8]) -> bool {
    let known = stated(rt, alloc, names, text);
    is_known(back, &known)
}

/// What comes back of the best schedule of the lower instance.
fn brought(
    rt: &impl Abort,
    alloc: Global,
    inst: &Instance,
    rows: &List<Row>,
    lower: &Instance,
    names: &Names,
    text: &[u8],
) -> Solution
    requires inner { Inner inst.now }
    requires chain { IsChain inst.now rows.now }
    requires lower { lower.now ≡ carried rows.now inst.now }
    requires inner_lower { Inner lower.now }
{
    let best = solution_of(rt, alloc, lower, names, text);
    let back = bring(alloc, inst, rows, best).expect(rt, "memory");
    settled(rt, inst, back)
}

/// Follows the way down, and back to what is stated. The lower instance.
fn follow_back(rt: &impl Abort, alloc: Global, filed: &Filed, way: &Way) -> Instance
    requires { Inner filed.now.instance }
{
    let (inst, names) = (&filed.instance, &filed.names);
    let rows = row_over(rt, alloc, inst, way.row);
    let lower = carry(alloc, inst, &rows).expect(rt, "memory");
    let back = brought(rt, alloc, inst, &rows, &lower, names, way.best);
    assert!(rt;
        is_stated(rt, alloc, names, &back, way.back),
        "another schedule comes back"
    );
    lower
}

/// Follows the way down and back.
fn follow(rt: &impl Abort, alloc: Global, way: &Way) {
    let filed = read(rt, alloc, way.upper);
    let lower = follow_back(rt, alloc, &filed, way);
    let row = way.row;
    assert!(rt;
        is_printed(rt, alloc, lower, filed.names, way.lower),
        "row {row}"
    );
}

fn follow_each(rt: &impl Abort, alloc: Global, ways: &[Way]) {
    for way in ways {
        follow(rt, alloc, way);
    }
}

#[test]
fn jobs_by_hand(rt: HostRuntime) {
    follow_each(&rt, rt.alloc(), JOBS);
}

#[test]
fn parallel_machines_by_hand(rt: HostRuntime) {
    follow_each(&rt, rt.alloc(), MACHINES);
}

#[test]
fn shops_by_hand(rt: HostRuntime) {
    follow_each(&rt, rt.alloc(), SHOPS);
}

#[test]
fn turned_schedules_by_hand(rt: HostRuntime) {
    follow_each(&rt, rt.alloc(), TURNS);
}
