// Evidence: the kind that shows a cost, a cost that none shows, and evidence without its schedule.
ghost use Rattle.msp_pieces.specs.Fraction.{IsComparable};

use msp_blocks::{Blocks, binding};
use msp_cert::{Proof, find};
use msp_instance::{Instance, Need};
use msp_lexical::{Lexical, segments};
use msp_route::Solver;
use msp_samples::{JobData, UNIT_JOB, in_class, instance, instance_by_needs, need, timed};
use msp_schedule::Frac;
use msp_shops::Open2;
use msp_total::{Unrelated, prices};
use std::alloc::Global;

fn kind_of(proof: &Proof) -> &'static str {
    match proof {
        Proof::Group { .. } => "group",
        Proof::Machine { .. } => "machine",
        Proof::Line { .. } => "line",
        Proof::Levels { .. } => "levels",
        Proof::Segments { .. } => "segments",
        Proof::Block { .. } => "block",
        Proof::Prices { .. } => "prices",
    }
}

fn whole(cost: u64) -> Frac
    ensures { IsComparable result }
{
    Frac {
        num: i128::from(cost),
        den: 1,
    }
}

/// The kind of the proof that is found for the cost, and None when out of memory.
fn found(alloc: Global, inst: Option<Instance>, cost: u64) -> Option<Option<&'static str>> {
    let inst = in_class(alloc, inst?)?;
    let proof = find(alloc, &inst, whole(cost)).ok()?;
    Some(proof.as_ref().map(kind_of))
}

#[test]
fn costs_of_a_shop(rt: HostRuntime) {
    let alloc = rt.alloc();
    let needs: [&[Need]; 2] = [&[need(0, 1), need(1, 1)], &[need(0, 3), need(1, 2)]];
    for (cost, kind) in [(3, Some("machine")), (5, Some("line")), (6, None)] {
        let shop = instance_by_needs(alloc, Open2.target(), 2, &[], &needs);
        assert!(rt; found(alloc, shop, cost) == Some(kind));
    }
}

/// How long the two segments are that show the bound of four jobs in a diamond of arcs.
fn segments_alone(alloc: Global) -> Option<[usize; 2]> {
    let arcs = [(0, 1), (0, 2), (1, 3), (2, 3)];
    let diamond = instance(alloc, Lexical.target(), 2, &[UNIT_JOB; 4], &arcs)?;
    let lists = segments(alloc, &diamond).ok()?;
    match lists.as_slice() {
        [first, last] => Some([first.len(), last.len()]),
        _ => None,
    }
}

/// How many jobs have a price and a position.
fn prices_alone(alloc: Global, needs: &[&[Need]]) -> Option<usize> {
    let unrelated = instance_by_needs(alloc, Unrelated.target(), 2, &[], needs)?;
    Some(prices(alloc, &unrelated).ok()?.column.len())
}

/// How many jobs the block has that shows the cost.
fn block_alone(alloc: Global, jobs: &[JobData]) -> Option<usize> {
    let cut = instance(alloc, Blocks.target(), 1, jobs, &[])?;
    Some(binding(alloc, &cut).ok()?.jobs.len())
}

#[test]
fn evidence_alone(rt: HostRuntime) {
    let alloc = rt.alloc();
    // Halved and rounded up they give the cost: 1 and 2.
    assert!(rt; segments_alone(alloc) == Some([1, 3]));
    let needs: [&[Need]; 2] = [&[need(0, 1), need(1, 9)], &[need(0, 2), need(1, 3)]];
    assert!(rt; prices_alone(alloc, &needs) == Some(2));
    let costly = JobData {
        release: 1,
        slope: 3,
        ..timed(1)
    };
    let whole = JobData {
        slope: 1,
        ..timed(4)
    };
    assert!(rt; block_alone(alloc, &[whole, costly]) == Some(1));
}
