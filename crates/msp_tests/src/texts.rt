// Instances and schedules that are read and printed again.
ghost use Rattle.std.specs.Prelude.{IsTrue};
ghost use Rattle.msp_pieces.specs.Fraction.{IsLowest};

use msp_file::{
    Filed, Names, Stated, print_instance, print_schedule, read_instance, read_schedule,
};
use msp_instance::gcd;
use msp_schedule::{Frac, Solution};
use std::alloc::Global;

/// Texts of instances that are read, and printed as they were.
const INSTANCES: &[&[u8]] = &[
    b"msp 1\nclass 1||sumwC\njob a p=3 w=1\njob b p=1 w=2\njob c p=2 w=2\nend\n",
    b"msp 1\nclass 1||Lmax\njob a p=2 d=4\njob b p=3 d=-2\nend\n",
    b"msp 1\nclass 1|prec|fmax\njob a p=2\ncurve 1 0\njob b p=3\ncurve 0 0 5 10\njob c p=1\ncurve 2 -4\narc a b\nend\n",
    b"msp 1\nclass P|pmtn|Cmax\nmachines 2\njob a p=3\njob b p=3\njob c p=3\nend\n",
    b"msp 1\nclass Q||sumC\nmachines 2\nspeeds 3 2\njob a p=5\njob b p=4\nend\n",
    b"msp 1\nclass Q|pmtn,r|sumwT\nmachines 3\nspeeds 1 2 3\njob a p=2 r=1 d=4 w=5\nend\n",
    b"msp 1\nclass O||Cmax\nmachines 2\njob a\ntimes 0 3\nend\n",
    b"msp 1\nclass J2|n<=2|Cmax\njob a\nroute 1 2\njob b\nroute 2 3\njob c\nroute 1 2 2 2\njob d\nroute 2 1 1 4\nend\n",
    b"msp 1\nclass J2|prec,r,n<=2|fmax\njob first r=4\nroute 2 7 1 3\ncurve 2 -5 10 6 20 1\njob second r=0\nroute 1 9\ncurve 0 0\narc first second\nend\n",
    b"msp 1\nclass J|p=1|Cmax\nmachines 2\njob a\nroute 2 1 2\nend\n",
    b"msp 1\nclass P|intree,p=p|Cmax\nmachines 2\ntime 5\njob a\njob b\njob c\njob d\narc a d\narc b d\narc c d\nend\n",
    b"msp 1\nclass O2|p=p|sumwC\ntime 1000000\njob a w=2\njob b w=3\nend\n",
    b"msp 1\nclass J|p=p|Cmax\nmachines 3\ntime 7\njob a\nroute 2 1 3\njob b\nroute 3\nend\n",
];

/// The text of the instance, read and printed again.
fn instance_again(alloc: Global, text: &[u8]) -> Option<Vec<u8>> {
    if text.len() >= 200 {
        return None;
    }
    let filed = read_instance(alloc, text).ok()?;
    print_instance(alloc, &filed).ok()
}

/// Whether it is the text.
pub fn is_text(found: Option<Vec<u8>>, text: &[u8]) -> bool {
    match found {
        Some(found) => found.as_slice() == text,
        None => false,
    }
}

#[test]
fn printed_again(rt: HostRuntime) {
    for text in INSTANCES {
        assert!(rt; is_text(instance_again(rt.alloc(), text), text));
    }
}

const INSTANCE: &[u8] =
    b"msp 1\nclass P|pmtn|Cmax\nmachines 2\njob a p=3\njob b p=3\njob c p=3\nend\n";

/// Whether the fraction is in lowest terms.
pub fn is_lowest(f: Frac) -> bool
    ensures { IsTrue result → IsLowest f }
{
    gcd(f.num.unsigned_abs(), f.den.unsigned_abs()) == 1
}

/// The text of the schedule, read and printed again.
fn schedule_again(alloc: Global, names: &Names, text: &[u8]) -> Option<Vec<u8>> {
    if text.len() >= 200 {
        return None;
    }
    let Stated { schedule, cost } = read_schedule(alloc, names, text, 1).ok()?;
    let solution = Solution { schedule, cost };
    if !is_lowest(solution.cost) {
        return None;
    }
    print_schedule(alloc, names, &solution).ok()
}

/// Texts of schedules for that instance, with costs in lowest terms.
const SCHEDULES: &[&[u8]] = &[
    b"schedule\ncost 9/2\nunit 2\npiece a 1 1 0 6\npiece b 1 2 0 3\npiece c 1 2 3 9\npiece b 1 1 6 9\nend\n",
    b"schedule\ncost 0\nunit 1\npiece a 1 3 6 6\nend\n",
    b"schedule\ncost -99999999999999999999999999999999999999/10000000000000\nunit 10000000000000\npiece c 32 32 0 200000000000000000000000000\nend\n",
];

#[test]
fn schedules_are_printed_again(rt: HostRuntime) {
    let Filed { names, .. } = read_instance(rt.alloc(), INSTANCE)
        .ok()
        .expect(&rt, "an instance");
    for text in SCHEDULES {
        assert!(rt; is_text(schedule_again(rt.alloc(), &names, text), text));
    }
}
