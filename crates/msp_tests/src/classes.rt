// Classes by the tables, and lists.
use msp_class::{
    Class, Crit, Env, List, Order, Times, fixed_machines, is_greatest, is_mirror, is_shop,
    most_operations, rank, turned, unrank, uses_curve, uses_due, uses_weight,
};

#[test]
fn facts_of_criteria(rt: HostRuntime) {
    assert!(rt; uses_due(Crit::SumU) && !uses_due(Crit::SumWC));
    assert!(rt; uses_weight(Crit::SumWC) && !uses_weight(Crit::SumU));
    assert!(rt; uses_curve(Crit::Fmax) && !uses_curve(Crit::Lmax));
    assert!(rt; is_greatest(Crit::Fmax) && !is_greatest(Crit::SumC));
}

#[test]
fn facts_of_environments(rt: HostRuntime) {
    assert!(rt; fixed_machines(Env::One) == Some(1));
    assert!(rt; fixed_machines(Env::J2Short) == Some(2));
    assert!(rt; fixed_machines(Env::JShort).is_none());
    assert!(rt; is_shop(Env::O3) && !is_shop(Env::R));
    assert!(rt; is_mirror(Env::O3) && !is_mirror(Env::F2));
    assert!(rt; most_operations(Env::JShort) == 2 && most_operations(Env::J2) == 32);
}

#[test]
fn keeps_order(rt: HostRuntime) {
    let mut list = List::new(rt.alloc());
    assert!(rt; list.push(3u8).is_ok() && list.put(5).is_ok());
    assert!(rt; list.len() == 2 && list.get(1).copied() == Some(5) && list.get(2).is_none());
    let again = List::from_vec(list.take_all());
    assert!(rt; list.len() == 0 && again.as_slice() == [3, 5].as_slice());
}

#[test]
fn turns_trees(rt: HostRuntime) {
    assert!(rt; turned(Order::Intree) == Order::Outtree && turned(Order::Prec) == Order::Prec);
}

const PLAIN: Class = Class {
    env: Env::One,
    cut: false,
    order: Order::Free,
    heads: false,
    times: Times::General,
    crit: Crit::Cmax,
};

const LAST: Class = Class {
    env: Env::J,
    cut: true,
    order: Order::Prec,
    heads: true,
    times: Times::Equal,
    crit: Crit::SumWT,
};

/// Classes, and their ranks.
const RANKS: &[(Class, u16)] = &[
    (PLAIN, 0),
    (
        Class {
            crit: Crit::SumWC,
            ..PLAIN
        },
        4,
    ),
    (
        Class {
            times: Times::Unit,
            ..PLAIN
        },
        9,
    ),
    (
        Class {
            times: Times::Equal,
            ..PLAIN
        },
        18,
    ),
    (Class { cut: true, ..PLAIN }, 270),
    (LAST, 9719),
];

#[test]
fn ranks_by_table(rt: HostRuntime) {
    for (class, number) in RANKS {
        assert!(rt; rank(*class) == *number, "rank {number}");
    }
    assert!(rt; unrank(9719) == Some(LAST) && unrank(9720).is_none());
}
