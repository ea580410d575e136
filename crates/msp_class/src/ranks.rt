// The numbers of the classes.
ghost use Rattle.std.specs.Prelude.{◌≡◌, ◌<◌, ◌↔◌, IsSome, IfSome};
ghost use Rattle.msp_class.specs.Rank.{env_number, flag_number, order_number, times_number, crit_number, rank_of};
ghost use Rattle.msp_class.specs.declared.class.Class.{Class};

use crate::class::{Class, Crit, Env, Order, Times};

/// How many classes there are.
pub const CLASSES: u16 = 9720;

/// The environments by their numbers.
const ENVS: [Env; 18] = [
    Env::One,
    Env::P2,
    Env::P3,
    Env::P,
    Env::Q2,
    Env::Q,
    Env::R2,
    Env::R,
    Env::O2,
    Env::O3,
    Env::O,
    Env::F2,
    Env::F3,
    Env::F,
    Env::J2Short,
    Env::JShort,
    Env::J2,
    Env::J,
];

/// The orders by their numbers.
const ORDERS: [Order; 5] = [
    Order::Free,
    Order::Chains,
    Order::Intree,
    Order::Outtree,
    Order::Prec,
];

/// The kinds of times by their numbers.
const TIMES: [Times; 3] = [Times::General, Times::Unit, Times::Equal];

/// The criteria by their numbers.
const CRITS: [Crit; 9] = [
    Crit::Cmax,
    Crit::Lmax,
    Crit::Fmax,
    Crit::SumC,
    Crit::SumWC,
    Crit::SumU,
    Crit::SumWU,
    Crit::SumT,
    Crit::SumWT,
];

/// The number of a class, from 0 to `CLASSES - 1`.
#[tactic(auto, unfolding(crate::specs::Rank::rank_of))]
pub fn rank(c: Class) -> u16
    ensures rank { result ≡ rank_of c }
    ensures below { result < CLASSES }
{
    let kind = env_place(c.env) * 2 + u16::from(c.cut);
    let ordered = kind * 5 + order_place(c.order);
    let dated = ordered * 2 + u16::from(c.heads);
    let timed = dated * 3 + times_place(c.times);
    timed * 9 + crit_place(c.crit)
}

/// The class of a rank. None comes exactly from `CLASSES` on.
pub fn unrank(n: u16) -> Option<Class>
    ensures some { IsSome result ↔ (n < CLASSES) }
    ensures ranked { IfSome result (λ c. rank_of c ≡ n) }
    ensures only { (c : Class) → rank_of c ≡ n → result ≡ Some c }
{
    if n < CLASSES { Some(class_at(n)) } else { None }
}

#[tactic(auto, unfolding(crate::specs::Rank::rank_of))]
fn class_at(n: u16) -> Class
    requires { n < CLASSES }
    ensures { rank_of result ≡ n }
{
    Class {
        env: env_at(n / 540),
        cut: flag_at(n / 270 % 2),
        order: order_at(n / 54 % 5),
        heads: flag_at(n / 27 % 2),
        times: times_at(n / 9 % 3),
        crit: crit_at(n % 9),
    }
}

fn env_place(e: Env) -> u16
    ensures place { result ≡ env_number e }
    ensures below { result < 18 }
{
    match e {
        Env::One => 0,
        Env::P2 => 1,
        Env::P3 => 2,
        Env::P => 3,
        Env::Q2 => 4,
        Env::Q => 5,
        Env::R2 => 6,
        Env::R => 7,
        Env::O2 => 8,
        Env::O3 => 9,
        Env::O => 10,
        Env::F2 => 11,
        Env::F3 => 12,
        Env::F => 13,
        Env::J2Short => 14,
        Env::JShort => 15,
        Env::J2 => 16,
        Env::J => 17,
    }
}

fn order_place(o: Order) -> u16
    ensures place { result ≡ order_number o }
    ensures below { result < 5 }
{
    o as u16
}

fn times_place(t: Times) -> u16
    ensures place { result ≡ times_number t }
    ensures below { result < 3 }
{
    t as u16
}

fn crit_place(k: Crit) -> u16
    ensures place { result ≡ crit_number k }
    ensures below { result < 9 }
{
    k as u16
}

fn env_at(n: u16) -> Env
    requires { n < 18 }
    ensures { env_number result ≡ n }
{
    ENVS[n as usize]
}

fn flag_at(n: u16) -> bool
    requires { n < 2 }
    ensures { flag_number result ≡ n }
{
    n == 1
}

fn order_at(n: u16) -> Order
    requires { n < 5 }
    ensures { order_number result ≡ n }
{
    ORDERS[n as usize]
}

fn times_at(n: u16) -> Times
    requires { n < 3 }
    ensures { times_number result ≡ n }
{
    TIMES[n as usize]
}

fn crit_at(n: u16) -> Crit
    requires { n < 9 }
    ensures { crit_number result ≡ n }
{
    CRITS[n as usize]
}
