// What the machine environment says of machines and routes.
ghost use Rattle.std.specs.Prelude.{◌≡◌};
ghost use Rattle.msp_class.specs.Env.{kind_of, fixed_machines, is_shop, is_mirror, most_operations};

use crate::class::Env;
use crate::sizes::{MOST_OPERATIONS, MOST_SHORT_OPERATIONS};

/// The kinds of machine environments. One machine is the case of one identical machine.
#[derive(Clone, Copy, PartialEq, Eq)]
pub enum EnvKind {
    Identical,
    Uniform,
    Unrelated,
    OpenShop,
    FlowShop,
    JobShop,
}

/// The kind of an environment.
pub fn env_kind(e: Env) -> EnvKind
    ensures { result ≡ kind_of e }
{
    match e {
        Env::One | Env::P2 | Env::P3 | Env::P => EnvKind::Identical,
        Env::Q2 | Env::Q => EnvKind::Uniform,
        Env::R2 | Env::R => EnvKind::Unrelated,
        Env::O2 | Env::O3 | Env::O => EnvKind::OpenShop,
        Env::F2 | Env::F3 | Env::F => EnvKind::FlowShop,
        Env::J2Short | Env::JShort | Env::J2 | Env::J => EnvKind::JobShop,
    }
}

/// The number of machines that an environment fixes. None comes exactly for P, Q, R, O, F, J and JShort.
pub fn fixed_machines(e: Env) -> Option<u32>
    ensures { result ≡ fixed_machines e }
{
    match e {
        Env::One => Some(1),
        Env::P2 | Env::Q2 | Env::R2 | Env::O2 | Env::F2 | Env::J2Short | Env::J2 => Some(2),
        Env::P3 | Env::O3 | Env::F3 => Some(3),
        Env::P | Env::Q | Env::R | Env::O | Env::F | Env::JShort | Env::J => None,
    }
}

/// Whether each operation of a job is bound to a machine: in open shops, flow shops and job shops.
pub fn is_shop(e: Env) -> bool
    ensures { result ≡ is_shop e }
{
    match env_kind(e) {
        EnvKind::OpenShop | EnvKind::FlowShop | EnvKind::JobShop => true,
        EnvKind::Identical | EnvKind::Uniform | EnvKind::Unrelated => false,
    }
}

/// Whether a schedule may be read from its end: in all environments but flow shops and job shops.
pub fn is_mirror(e: Env) -> bool
    ensures { result ≡ is_mirror e }
{
    match env_kind(e) {
        EnvKind::FlowShop | EnvKind::JobShop => false,
        EnvKind::Identical | EnvKind::Uniform | EnvKind::Unrelated | EnvKind::OpenShop => true,
    }
}

/// The most operations of a job shop's route.
pub fn most_operations(e: Env) -> usize
    ensures { result ≡ most_operations e }
{
    match e {
        Env::J2Short | Env::JShort => MOST_SHORT_OPERATIONS,
        _ => MOST_OPERATIONS,
    }
}
