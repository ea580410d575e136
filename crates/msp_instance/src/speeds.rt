// The conditions of a class on speeds.
ghost use Rattle.std.specs.Prelude.{ℕ, ◌*◌, ◌<◌, ◌≤◌, ◌↔◌, IsTrue, All};
ghost use Rattle.std.specs.Int.{◌∣◌, IsGcd};
ghost use Rattle.msp_class.specs.Env.{kind_of};
ghost use Rattle.msp_class.specs.declared.sizes.TheConstants.{GREATEST_SPEED, GREATEST_MULTIPLE};
ghost use Rattle.msp_instance.specs.Conditions.{HasSpeeds, HasSmallMultiple};
ghost use Rattle.msp_instance.specs.Multiples.{IsLeastMultiple, IsLeastOfAll};

use msp_class::{Env, EnvKind, GREATEST_MULTIPLE, GREATEST_SPEED, env_kind};

/// The greatest common divisor (Euclid). That of 0 and a number is the number.
pub fn gcd(a: u128, b: u128) -> u128
    ensures divisor { IsGcd a b result }
    ensures scaled { (d factor : ℕ) → d ∣ factor * a → d ∣ factor * b → d ∣ factor * result }
{
    let mut x = a;
    let mut y = b;
    while y != 0 {
        let rest = x % y;
        x = y;
        y = rest;
    }
    x
}

/// The least common multiple of two numbers.
fn common_multiple(a: u64, b: u64) -> u64
    requires a { (1 ≤ a) × (a ≤ GREATEST_MULTIPLE) }
    requires b { (1 ≤ b) × (b ≤ GREATEST_SPEED) }
    ensures least { IsLeastMultiple a b result }
    ensures some { 1 ≤ result }
{
    let divisor = gcd(u128::from(a), u128::from(b)) as u64;
    a / divisor * b
}

/// The least common multiple of all speeds.
pub fn multiple_of_all(speeds: &[u64]) -> u64
    requires speeds { All (λ s. (1 ≤ s) × (s ≤ GREATEST_SPEED)) speeds.now }
    requires small { HasSmallMultiple speeds.now }
    ensures least { IsLeastOfAll speeds.now result }
    ensures small { result ≤ GREATEST_MULTIPLE }
{
    let mut multiple = 1;
    for speed in speeds {
        multiple = common_multiple(multiple, *speed);
    }
    multiple
}

/// Whether the machines have the speeds of their kind.
pub(crate) fn has_speeds(env: Env, machines: u32, speeds: &[u64]) -> bool
    ensures { IsTrue result ↔ HasSpeeds (kind_of env) machines speeds.now }
{
    match env_kind(env) {
        EnvKind::Uniform => {
            speeds.len() == machines as usize
                && speeds.iter().all(|s| 1 <= *s && *s <= GREATEST_SPEED)
        }
        EnvKind::Identical
        | EnvKind::Unrelated
        | EnvKind::OpenShop
        | EnvKind::FlowShop
        | EnvKind::JobShop => speeds.is_empty(),
    }
}

/// Whether the least common multiple of the speeds is at most `GREATEST_MULTIPLE`.
pub fn has_small_multiple(speeds: &[u64]) -> bool
    requires { All (λ s. (1 ≤ s) × (s ≤ GREATEST_SPEED)) speeds.now }
    ensures { IsTrue result ↔ HasSmallMultiple speeds.now }
{
    let mut multiple = 1;
    for s in speeds {
        multiple = common_multiple(multiple, *s);
        if multiple > GREATEST_MULTIPLE {
            return false;
        }
    }
    true
}
