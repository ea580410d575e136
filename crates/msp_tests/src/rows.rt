// Rows of the table, and the classes to which they lead.
use msp_class::{Class, Crit, Env, Order, Times};
use msp_closure::{reach, reaches, route_to};
use msp_samples::class;
use msp_table::{Row, RowKind, carries, goes, keeps_size, kind, text};
use std::process::Abort;

fn row(rt: &impl Abort, number: u8) -> Row {
    Row::new(number).expect(rt, "a row")
}

#[test]
fn texts_and_kinds(rt: HostRuntime) {
    let first = row(&rt, 1);
    assert!(rt; first.number() == 1 && text(first) == "none to chains");
    assert!(rt; kind(first) == RowKind::Carries && carries(first));
    let threshold = row(&rt, 15);
    assert!(rt; text(threshold) == "Lmax to sumU" && kind(threshold) == RowKind::Threshold);
    assert!(rt; keeps_size(threshold) && !carries(threshold));
    assert!(rt; !keeps_size(row(&rt, 26)));
    assert!(rt; text(row(&rt, 54)) == "p=p to p=1");
    assert!(rt; Row::new(0).is_none() && Row::new(55).is_none());
}

/// The makespan on one machine, with release dates.
const DATED: Class = Class {
    env: Env::One,
    cut: false,
    order: Order::Free,
    heads: true,
    times: Times::General,
    crit: Crit::Cmax,
};

const DUE: Class = Class {
    heads: false,
    crit: Crit::Lmax,
    ..DATED
};

/// The makespan of equal times on uniform machines.
const EQUAL: Class = Class {
    env: Env::Q,
    heads: false,
    times: Times::Equal,
    ..DATED
};

const UNIT: Class = Class {
    times: Times::Unit,
    ..EQUAL
};

/// A row by its number, a class, and that to which it leads.
const STEPS: &[(u8, Class, Option<Class>)] = &[
    (47, DATED, Some(DUE)),
    (
        47,
        Class {
            order: Order::Intree,
            ..DATED
        },
        Some(Class {
            order: Order::Outtree,
            ..DUE
        }),
    ),
    (47, DUE, None),
    (26, EQUAL, None),
    (54, EQUAL, Some(UNIT)),
    (
        54,
        Class {
            crit: Crit::Lmax,
            ..EQUAL
        },
        None,
    ),
    (54, UNIT, None),
];

#[test]
fn turns_and_refuses(rt: HostRuntime) {
    for (number, from, to) in STEPS {
        assert!(rt; goes(row(&rt, *number), *from) == *to, "row {number}");
    }
}

#[test]
fn lateness_leads_to_late_weight(rt: HostRuntime) {
    let alloc = rt.alloc();
    let lateness = class(Env::One, Order::Free, Crit::Lmax);
    let late_weight = class(Env::One, Order::Free, Crit::SumWU);
    let bits = reach(alloc).expect(&rt, "memory");
    assert!(rt; reaches(&bits, lateness, late_weight) && !reaches(&bits, late_weight, lateness));
    let greatest = class(Env::One, Order::Free, Crit::Fmax);
    let found = route_to(alloc, lateness, greatest).expect(&rt, "memory");
    let chain = found.expect(&rt, "a chain");
    assert!(rt; chain.rows.len() == 1 && chain.rows.get(0).copied() == Row::new(9));
    let back = route_to(alloc, greatest, lateness).expect(&rt, "memory");
    assert!(rt; back.is_none());
}
