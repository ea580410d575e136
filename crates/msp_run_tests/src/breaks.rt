// The two searches for a broken condition: none is found in what the solvers answer, and both find the same one in damaged schedules.
ghost use Rattle.msp_instance.specs.Conditions.{InClass, Inner};

use crate::rows::{class_of, is_small};
use crate::solvers::DRAWN;
use msp_class::{Class, EnvKind, List, env_kind};
use msp_dispatch::{Cannot, solve_any};
use msp_gen::generate;
use msp_instance::Instance;
use msp_schedule::{Break, Piece, Schedule, first_break, swept};
use std::alloc::Global;
use std::process::Abort;
use std::test::Fail;

/// What is done to a schedule at one of its pieces.
#[derive(Clone, Copy)]
enum Damage {
    /// The piece does not last.
    Empty,
    /// It stands on a machine that is not there.
    Elsewhere,
    /// It begins with the piece before it, the first one with the last.
    AtOnce,
    /// It stands there a second time, on the next machine.
    Twice,
    /// It is left out.
    Lost,
    /// What is done by its end is read from there.
    Turned,
}

const DAMAGES: [Damage; 6] = [
    Damage::Empty,
    Damage::Elsewhere,
    Damage::AtOnce,
    Damage::Twice,
    Damage::Lost,
    Damage::Turned,
];

/// The piece, beginning at the moment.
fn begun(piece: Piece, from: i128) -> Piece {
    let length = piece.to.saturating_sub(piece.from);
    Piece {
        from,
        to: from.saturating_add(length),
        ..piece
    }
}

/// The piece, read from the moment where it is done by then.
fn turned(piece: Piece, moment: i128) -> Piece {
    if piece.to > moment {
        return piece;
    }
    Piece {
        from: moment.saturating_sub(piece.to),
        to: moment.saturating_sub(piece.from),
        ..piece
    }
}

/// Puts a piece behind the others.
fn put(rt: &impl Abort, pieces: &mut Vec<Piece>, piece: Piece) {
    pieces.push(piece).expect(rt, "memory");
}

/// Puts the piece twice, the second time on the next of the machines.
fn put_twice(rt: &impl Abort, pieces: &mut Vec<Piece>, piece: Piece, machines: u32) {
    let machine = piece.machine.wrapping_add(1) % machines.max(1);
    put(rt, pieces, piece);
    put(rt, pieces, Piece { machine, ..piece });
}

/// Puts what comes in the place of the piece, before which stands another one.
fn put_damaged(
    rt: &impl Abort,
    pieces: &mut Vec<Piece>,
    piece: Piece,
    before: Piece,
    machines: u32,
    damage: Damage,
) {
    let to = piece.from;
    let machine = machines;
    match damage {
        Damage::Empty => put(rt, pieces, Piece { to, ..piece }),
        Damage::Elsewhere => put(rt, pieces, Piece { machine, ..piece }),
        Damage::AtOnce => put(rt, pieces, begun(piece, before.from)),
        Damage::Twice => put_twice(rt, pieces, piece, machines),
        Damage::Lost => {}
        Damage::Turned => put(rt, pieces, turned(piece, piece.to)),
    }
}

/// The schedule with the damage at the piece of the number.
fn damaged(
    rt: &impl Abort,
    alloc: Global,
    s: &Schedule,
    machines: u32,
    damage: Damage,
    at: usize,
) -> Schedule {
    let given = s.pieces.as_slice();
    let hit = *given.get(at).expect(rt, "a piece");
    let mut before = *given.last().expect(rt, "a piece");
    let mut pieces = Vec::new(alloc);
    for k in 0..given.len() {
        let piece = given[k];
        if k == at {
            put_damaged(rt, &mut pieces, piece, before, machines, damage);
        } else if let Damage::Turned = damage {
            put(rt, &mut pieces, turned(piece, hit.to));
        } else {
            put(rt, &mut pieces, piece);
        }
        before = piece;
    }
    Schedule {
        unit: s.unit,
        pieces: List::from_vec(pieces),
    }
}

/// The first broken condition, as both searches find it.
fn broken(rt: &impl Abort, alloc: Global, inst: &Instance, s: &Schedule) -> Option<Break>
    requires { Inner inst.now }
{
    assert!(rt; is_small(inst, s), "the schedule is too large");
    if inst.class.cut && env_kind(inst.class.env) == EnvKind::Unrelated {
        panic!(rt; "the schedule is not checked");
    }
    let first = first_break(inst, s);
    let second = swept(alloc, inst, s).expect(rt, "memory");
    assert!(rt; second == first, "the searches differ");
    first
}

/// The place of the condition in the order in which they are looked for.
fn place(broken: Break) -> usize {
    match broken {
        Break::Span { .. } => 0,
        Break::Place { .. } => 1,
        Break::Machine { .. } => 2,
        Break::Job { .. } => 3,
        Break::Release { .. } => 4,
        Break::Arc { .. } => 5,
        Break::Route { .. } => 6,
        Break::Work { .. } => 7,
    }
}

/// An instance of the class, which belongs to it.
#[tactic(auto, using(crate::proofs::RowJourneys::drawn_rules))]
fn drawn(rt: &impl Abort, alloc: Global, class: Class) -> Instance
    ensures class { InClass result }
    ensures inner { Inner result }
{
    generate(alloc, class, 6, 1).expect(rt, "memory")
}

/// The solver's schedule.
fn solved(alloc: Global, inst: &Instance) -> Result<Schedule, Fail>
    requires class { InClass inst.now }
    requires inner { Inner inst.now }
{
    let answer = match solve_any(alloc, inst, None) {
        Ok(answer) => answer,
        Err(Cannot::Memory) => return Err(Fail::new("no memory")),
        Err(_) => return Err(Fail::new("no solver")),
    };
    Ok(answer.solution.schedule)
}

/// The same, in which nothing is broken.
fn answered(rt: &impl Abort, alloc: Global, inst: &Instance) -> Result<Schedule, Fail>
    requires class { InClass inst.now }
    requires inner { Inner inst.now }
{
    let schedule = solved(alloc, inst)?;
    let broken = broken(rt, alloc, inst, &schedule);
    assert!(rt; broken.is_none(), "the answer is not feasible");
    Ok(schedule)
}

/// Adds one to the count of the condition, if one is broken.
fn add(counts: &mut [u32; 8], broken: Option<Break>) {
    if let Some(broken) = broken {
        if let Some(number) = counts.get_mut(place(broken)) {
            *number = number.saturating_add(1);
        }
    }
}

/// Counts what is broken in the schedule after the damage at each of its pieces.
fn count(
    rt: &impl Abort,
    alloc: Global,
    inst: &Instance,
    s: &Schedule,
    damage: Damage,
    counts: &mut [u32; 8],
)
    requires { Inner inst.now }
{
    for at in 0..s.pieces.len() {
        let s = damaged(rt, alloc, s, inst.machines, damage, at);
        add(counts, broken(rt, alloc, inst, &s));
    }
}

/// Counts what is broken in the answer of the class after each damage.
fn count_class(
    rt: &impl Abort,
    alloc: Global,
    class: Class,
    counts: &mut [u32; 8],
) -> Result<(), Fail> {
    let inst = drawn(rt, alloc, class);
    let schedule = answered(rt, alloc, &inst)?;
    for damage in DAMAGES {
        count(rt, alloc, &inst, &schedule, damage, counts);
    }
    Ok(())
}

/// The sum of the counts, none of which is 0.
fn total(rt: &impl Abort, counts: &[u32; 8]) -> u32 {
    let mut all = 0_u32;
    for count in counts {
        assert!(rt; *count > 0, "{counts:?}");
        all = all.saturating_add(*count);
    }
    all
}

#[test]
fn both_searches_find_the_same(rt: HostRuntime) -> Result<(), Fail> {
    let mut counts = [0_u32; 8];
    for (name, _) in DRAWN {
        count_class(&rt, rt.alloc(), class_of(&rt, name), &mut counts)?;
    }
    assert!(rt; total(&rt, &counts) >= 100, "{counts:?}");
    Ok(())
}
