// Which lines and keys the texts of a class have.
ghost use Rattle.std.specs.Prelude.{◌≡◌};
ghost use Rattle.msp_class.specs.Env.{kind_of};
ghost use Rattle.msp_grammar.specs.Layout.{has_times, has_time_line, has_one_time, has_machine_times, has_route, has_speeds, has_order, has_time_key, has_times_line};

use msp_class::{Class, Env, EnvKind, Order, Times, env_kind};

/// Whether each job's times are written.
pub fn has_times(times: Times) -> bool
    ensures { result ≡ has_times times }
{
    matches!(times, Times::General)
}

/// Whether there is a line with the time that all operations share.
pub fn has_time_line(times: Times) -> bool
    ensures { result ≡ has_time_line times }
{
    matches!(times, Times::Equal)
}

/// Whether a job has one time.
pub fn has_one_time(env: Env) -> bool
    ensures { result ≡ has_one_time (kind_of env) }
{
    matches!(env_kind(env), EnvKind::Identical | EnvKind::Uniform)
}

fn has_machine_times(env: Env) -> bool
    ensures { result ≡ has_machine_times (kind_of env) }
{
    matches!(
        env_kind(env),
        EnvKind::Unrelated | EnvKind::OpenShop | EnvKind::FlowShop
    )
}

/// Whether a job has a line with its route.
pub fn has_route(env: Env) -> bool
    ensures { result ≡ has_route (kind_of env) }
{
    matches!(env_kind(env), EnvKind::JobShop)
}

/// Whether there is a line with the speeds of the machines.
pub fn has_speeds(env: Env) -> bool
    ensures { result ≡ has_speeds (kind_of env) }
{
    matches!(env_kind(env), EnvKind::Uniform)
}

/// Whether there may be arcs.
pub fn has_order(order: Order) -> bool
    ensures { result ≡ has_order order }
{
    !matches!(order, Order::Free)
}

/// Whether the line of a job has the key of its time.
pub fn has_time_key(class: Class) -> bool
    ensures { result ≡ has_time_key class }
{
    has_times(class.times) && has_one_time(class.env)
}

/// Whether a job has a line with its times on the machines.
pub fn has_times_line(class: Class) -> bool
    ensures { result ≡ has_times_line class }
{
    has_times(class.times) && has_machine_times(class.env)
}
