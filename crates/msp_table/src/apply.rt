// Where each row leads.
ghost use Rattle.std.specs.Prelude.{◌≡◌};
ghost use Rattle.msp_table.specs.Rows.{goes_of};

use crate::row::Row;
use crate::steps::{
    crit_step, cut_step, dates_step, env_step, exchange_step, general_env_step, heads_step,
    order_step, reversal_step, times_step, unit_step,
};
use msp_class::{Class, Crit, Env, Order, Times};

/// The step of a row from a class, by the number of the row.
macro_rules! at_row {
    ($number:expr, $class:expr, { $($row:literal => $step:ident($($argument:expr),*),)* _ => $last:ident(), }) => {
        match $number {
            $($row => $step($class, $($argument),*),)*
            _ => $last($class),
        }
    };
}

/// The class to which the row leads. None comes exactly where the row does not apply.
#[tactic(auto, unfolding(crate::specs::Rows::table, crate::specs::Rows::goes_of))]
pub fn goes(row: Row, c: Class) -> Option<Class>
    ensures { result ≡ goes_of row c }
{
    at_row!(row.number(), c, {
        1 => order_step(Order::Free, Order::Chains),
        2 => order_step(Order::Chains, Order::Intree),
        3 => order_step(Order::Chains, Order::Outtree),
        4 => order_step(Order::Intree, Order::Prec),
        5 => order_step(Order::Outtree, Order::Prec),
        6 => heads_step(),
        7 => times_step(Times::Unit, Times::Equal),
        8 => crit_step(Crit::Cmax, Crit::Lmax),
        9 => crit_step(Crit::Lmax, Crit::Fmax),
        10 => crit_step(Crit::SumC, Crit::SumWC),
        11 => crit_step(Crit::SumC, Crit::SumT),
        12 => crit_step(Crit::SumWC, Crit::SumWT),
        13 => crit_step(Crit::SumT, Crit::SumWT),
        14 => crit_step(Crit::SumU, Crit::SumWU),
        15 => crit_step(Crit::Lmax, Crit::SumU),
        16 => crit_step(Crit::Lmax, Crit::SumT),
        17 => env_step(Env::One, Env::P),
        18 => env_step(Env::P2, Env::P),
        19 => env_step(Env::P3, Env::P),
        20 => env_step(Env::P2, Env::Q2),
        21 => env_step(Env::P, Env::Q),
        22 => env_step(Env::Q2, Env::Q),
        23 => env_step(Env::P2, Env::R2),
        24 => env_step(Env::P, Env::R),
        25 => env_step(Env::R2, Env::R),
        26 => general_env_step(Env::Q, Env::R),
        27 => general_env_step(Env::Q2, Env::R2),
        28 => general_env_step(Env::One, Env::F2),
        29 => general_env_step(Env::One, Env::O2),
        30 => general_env_step(Env::F2, Env::F3),
        31 => general_env_step(Env::O2, Env::O3),
        32 => env_step(Env::One, Env::F),
        33 => env_step(Env::One, Env::O),
        34 => env_step(Env::One, Env::J2Short),
        35 => env_step(Env::F2, Env::F),
        36 => env_step(Env::F3, Env::F),
        37 => env_step(Env::O2, Env::O),
        38 => env_step(Env::O3, Env::O),
        39 => env_step(Env::F2, Env::J2Short),
        40 => env_step(Env::F, Env::J),
        41 => env_step(Env::J2Short, Env::J2),
        42 => env_step(Env::J2Short, Env::JShort),
        43 => env_step(Env::J2, Env::J),
        44 => env_step(Env::JShort, Env::J),
        45 => reversal_step(Order::Intree, Order::Outtree),
        46 => reversal_step(Order::Outtree, Order::Intree),
        47 => dates_step(true, Crit::Cmax, Crit::Lmax),
        48 => dates_step(false, Crit::Lmax, Crit::Cmax),
        49 => cut_step(false),
        50 => cut_step(true),
        51 => exchange_step(Order::Intree, Order::Outtree),
        52 => exchange_step(Order::Outtree, Order::Intree),
        53 => times_step(Times::Equal, Times::General),
        _ => unit_step(),
    })
}
