// Instances of the classes, and the conditions that they break.
use msp_class::{Class, Crit, Env, List, Order, Times};
use msp_instance::{Arc, ClassFault, Instance, OrderFault, check, check_distinct_arcs, forward};
use msp_samples::{JobData, UNIT_JOB, jobs, list_of};
use std::alloc::Global;
use std::process::Abort;

const PLAIN: Class = Class {
    env: Env::One,
    cut: false,
    order: Order::Free,
    heads: false,
    times: Times::General,
    crit: Crit::Cmax,
};

const P2: Class = Class {
    env: Env::P2,
    ..PLAIN
};

const Q2: Class = Class {
    env: Env::Q2,
    ..PLAIN
};

const UNIT: Class = Class {
    times: Times::Unit,
    ..PLAIN
};

const EQUAL: Class = Class {
    times: Times::Equal,
    ..PLAIN
};

const WEIGHTED: Class = Class {
    crit: Crit::SumWC,
    ..PLAIN
};

const PREC: Class = Class {
    order: Order::Prec,
    ..PLAIN
};

const INTREE: Class = Class {
    order: Order::Intree,
    ..PLAIN
};

const OUTTREE: Class = Class {
    order: Order::Outtree,
    ..PLAIN
};

const JOB: JobData = JobData {
    time: 3,
    ..UNIT_JOB
};

const IDLE: JobData = JobData {
    time: 0,
    ..UNIT_JOB
};

/// Arcs by pairs: the first job of each is complete when the second begins.
fn arcs_of(rt: &impl Abort, alloc: Global, pairs: &[(u32, u32)]) -> List<Arc> {
    let mut arcs = List::new(alloc);
    for pair in pairs {
        let (before, after) = *pair;
        arcs.put(Arc { before, after }).expect(rt, "memory");
    }
    arcs
}

fn instance(
    rt: &impl Abort,
    alloc: Global,
    class: Class,
    speeds: &[u64],
    data: &[JobData],
    pairs: &[(u32, u32)],
) -> Instance {
    Instance {
        class,
        machines: if speeds.is_empty() { 1 } else { 2 },
        speeds: list_of(alloc, speeds).expect(rt, "memory"),
        jobs: jobs(alloc, data).expect(rt, "memory"),
        arcs: arcs_of(rt, alloc, pairs),
    }
}

type Case = (
    Class,
    &'static [u64],
    &'static [JobData],
    &'static [(u32, u32)],
    Option<ClassFault>,
);

const CASES: &[Case] = &[
    (PLAIN, &[], &[JOB, JOB], &[], None),
    (PLAIN, &[], &[], &[], Some(ClassFault::Jobs)),
    (P2, &[], &[JOB], &[], Some(ClassFault::Machines)),
    (P2, &[5, 7], &[JOB], &[], Some(ClassFault::Speeds)),
    (
        Q2,
        &[999_983, 999_979],
        &[JOB],
        &[],
        Some(ClassFault::Multiple),
    ),
    (Q2, &[1024, 524_288], &[JOB], &[], None),
    (
        PLAIN,
        &[],
        &[JOB, IDLE],
        &[],
        Some(ClassFault::Need { job: 1 }),
    ),
    (UNIT, &[], &[JOB], &[], Some(ClassFault::Unit { job: 0 })),
    (EQUAL, &[], &[JOB, JOB], &[], None),
    (
        EQUAL,
        &[],
        &[JOB, JobData { time: 4, ..JOB }],
        &[],
        Some(ClassFault::Unit { job: 1 }),
    ),
    (
        EQUAL,
        &[],
        &[JobData {
            time: 1_000_001,
            ..JOB
        }],
        &[],
        Some(ClassFault::Need { job: 0 }),
    ),
    (
        PLAIN,
        &[],
        &[JOB, JobData { release: 1, ..JOB }],
        &[],
        Some(ClassFault::Head { job: 1 }),
    ),
    (
        PLAIN,
        &[],
        &[
            JobData {
                due: -1,
                weight: 2,
                ..JOB
            },
            IDLE,
        ],
        &[],
        Some(ClassFault::Due { job: 0 }),
    ),
    (
        PLAIN,
        &[],
        &[JobData { weight: 2, ..JOB }, IDLE],
        &[],
        Some(ClassFault::Weight { job: 0 }),
    ),
    (WEIGHTED, &[], &[JobData { weight: 2, ..JOB }], &[], None),
    (
        PLAIN,
        &[],
        &[JobData { slope: 1, ..JOB }],
        &[],
        Some(ClassFault::Curve { job: 0 }),
    ),
    (PLAIN, &[], &[JOB, JOB], &[(0, 1)], Some(ClassFault::Arcs)),
    (
        PREC,
        &[],
        &[JOB, JOB],
        &[(0, 1), (1, 0), (0, 1)],
        Some(ClassFault::Arc { at: 2 }),
    ),
    (
        PREC,
        &[],
        &[JOB, JOB],
        &[(0, 2)],
        Some(ClassFault::Arc { at: 0 }),
    ),
    (
        INTREE,
        &[],
        &[JOB, JOB, JOB],
        &[(1, 0), (1, 2)],
        Some(ClassFault::Degree { job: 1 }),
    ),
    (OUTTREE, &[], &[JOB, JOB, JOB], &[(1, 0), (1, 2)], None),
];

/// The first fault of the instance of the case.
fn fault_of(rt: &impl Abort, alloc: Global, case: &Case) -> Option<ClassFault> {
    let (class, speeds, data, pairs, _) = *case;
    check(&instance(rt, alloc, class, speeds, data, pairs)).err()
}

#[test]
fn first_faults(rt: HostRuntime) {
    for case in CASES {
        assert!(rt; fault_of(&rt, rt.alloc(), case) == case.4);
    }
}

/// The fault of the instance where it has the arc alone.
fn fault_with_arc(alloc: Global, inst: Instance, arc: Arc) -> Option<ClassFault> {
    let arcs = list_of(alloc, &[arc]).ok()?;
    let inst = Instance { arcs, ..inst };
    check_distinct_arcs(&inst).err()
}

#[test]
fn faults_of_distinct_arcs(rt: HostRuntime) {
    let alloc = rt.alloc();
    let mut inst = instance(&rt, alloc, PREC, &[], &[JOB, JOB], &[]);
    inst.arcs = List::new(alloc);
    assert!(rt; check_distinct_arcs(&inst).is_ok());
    let first = Arc {
        before: 1,
        after: 2,
    };
    assert!(rt; fault_with_arc(alloc, inst, first) == Some(ClassFault::Arc { at: 0 }));
}

/// The order of four jobs.
fn order_of(rt: &impl Abort, alloc: Global, pairs: &[(u32, u32)]) -> Result<List<u32>, OrderFault> {
    let inst = instance(rt, alloc, PREC, &[], &[JOB; 4], pairs);
    assert!(rt; check(&inst).is_ok());
    forward(alloc, &inst)
}

/// Where the least job stands that is on a cycle.
fn cycle_of(rt: &impl Abort, alloc: Global, pairs: &[(u32, u32)]) -> Option<OrderFault> {
    order_of(rt, alloc, pairs).err()
}

#[test]
fn orders_and_cycles(rt: HostRuntime) {
    let alloc = rt.alloc();
    let chain = [(2, 0), (0, 1), (2, 1), (3, 2)];
    let order = order_of(&rt, alloc, &chain).expect(&rt, "an order");
    assert!(rt; order.as_slice() == [3, 2, 0, 1].as_slice());
    let behind = cycle_of(&rt, alloc, &[(0, 3), (3, 2), (2, 3), (2, 1)]);
    assert!(rt; behind == Some(OrderFault::Cycle { job: 2 }));
    let itself = cycle_of(&rt, alloc, &[(0, 1), (1, 1)]);
    assert!(rt; itself == Some(OrderFault::Cycle { job: 1 }));
}
