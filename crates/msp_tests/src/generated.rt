// Small generated instances, as drawn by hand from the seed.
use msp_class::{Class, Crit, Env, Order, Times};
use msp_gen::{GenFault, generate};
use msp_instance::{Arc, Instance, Need};
use msp_samples::need;

const FLOW_SHOP: Class = Class {
    env: Env::F2,
    cut: false,
    order: Order::Free,
    heads: false,
    times: Times::General,
    crit: Crit::Cmax,
};

const WEIGHTED: Class = Class {
    env: Env::One,
    crit: Crit::SumWC,
    ..FLOW_SHOP
};

const TREE: Class = Class {
    env: Env::Q,
    cut: false,
    order: Order::Intree,
    heads: true,
    times: Times::Equal,
    crit: Crit::SumWT,
};

/// Whether the job has just these needs.
fn has_needs(made: &Instance, job: usize, needs: &[Need]) -> bool {
    match made.jobs.get(job) {
        Some(job) => job.needs.as_slice() == needs,
        None => false,
    }
}

/// Whether the job has this weight.
fn has_weight(made: &Instance, job: usize, weight: u64) -> bool {
    match made.jobs.get(job) {
        Some(job) => job.weight == weight,
        None => false,
    }
}

/// Whether the job has these dates.
fn has_dates(made: &Instance, job: usize, release: u64, due: i64) -> bool {
    match made.jobs.get(job) {
        Some(job) => job.release == release && job.due == due,
        None => false,
    }
}

#[test]
fn three_jobs_of_a_flow_shop(rt: HostRuntime) {
    let made = generate(rt.alloc(), FLOW_SHOP, 3, 1).expect(&rt, "memory");
    assert!(rt; made.jobs.len() == 3);
    assert!(rt; has_needs(&made, 0, &[need(0, 39), need(1, 1)]));
    assert!(rt; has_needs(&made, 1, &[need(0, 14), need(1, 42)]));
    assert!(rt; has_needs(&made, 2, &[need(0, 52), need(1, 72)]));
}

#[test]
fn three_jobs_with_weights(rt: HostRuntime) {
    let made = generate(rt.alloc(), WEIGHTED, 3, 1).expect(&rt, "memory");
    assert!(rt; made.jobs.len() == 3);
    assert!(rt; has_needs(&made, 0, &[need(0, 39)]) && has_weight(&made, 0, 59));
    assert!(rt; has_needs(&made, 1, &[need(0, 14)]) && has_weight(&made, 1, 16));
    assert!(rt; has_needs(&made, 2, &[need(0, 52)]) && has_weight(&made, 2, 28));
}

#[test]
fn an_intree_of_equal_times(rt: HostRuntime) {
    let made = generate(rt.alloc(), TREE, 3, 1).expect(&rt, "memory");
    let arcs = [Arc {
        before: 0,
        after: 2,
    }];
    assert!(rt;
        made.speeds.as_slice() == [3, 3, 2, 4].as_slice() && made.arcs.as_slice() == arcs.as_slice()
    );
    assert!(rt; has_dates(&made, 0, 627, 10) && has_weight(&made, 0, 20));
    assert!(rt; has_dates(&made, 1, 212, 86) && has_weight(&made, 1, 50));
    assert!(rt; has_dates(&made, 2, 767, 84) && has_weight(&made, 2, 61));
}

#[test]
fn no_job_or_too_many_are_a_fault(rt: HostRuntime) {
    for jobs in [0, 401] {
        assert!(rt; generate(rt.alloc(), FLOW_SHOP, jobs, 1).err() == Some(GenFault::Jobs));
    }
}
