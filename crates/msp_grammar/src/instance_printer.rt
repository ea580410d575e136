// The printer of instance texts.
ghost use Rattle.std.specs.Prelude.{◌≡◌, ◌<◌, ◌++◌, ◌∷◌, [], length, map, OnOk, IfOk, decimal};
ghost use Rattle.std.specs.Fmt.{signed_decimal};
ghost use Rattle.std.specs.List.{flat_map};
ghost use Rattle.msp_name.specs.Names.{name_of};
ghost use Rattle.msp_instance.specs.Conditions.{InClass};
ghost use Rattle.msp_grammar.specs.InstanceText.{line_text, where_wanted, time_key, release_key, due_key, weight_key, key_fields, job_fields, times_fields, operation_fields};
ghost use Rattle.msp_grammar.specs.InstanceText.{route_fields, step_fields, curve_fields, times_text, route_text, curve_text, job_text, jobs_text, arc_fields, arcs_text};
ghost use Rattle.msp_grammar.specs.InstanceText.{machines_text, speeds_text, time_text, class_text, head_text, instance_text, IsInstanceText};
ghost use Rattle.msp_grammar.specs.Printing.{spaced};
ghost use Rattle.msp_grammar.specs.ScheduleText.{name_at};

use crate::filed::Filed;
use crate::layout::{
    has_route, has_speeds, has_time_key, has_time_line, has_times, has_times_line,
};
use crate::schedule_printer::put_name;
use msp_class::{Class, Env, NoMemory, Times, fixed_machines, uses_curve, uses_due, uses_weight};
use msp_instance::{Arc, Curve, Instance, Job, Need, Step, common_time, first_time};
use msp_name::print;
use msp_text::{Names, put, put_integer, put_number};
use std::alloc::Global;

fn put_field(out: &mut Vec<u8>, field: &[u8]) -> Result<(), NoMemory>
    ensures { OnOk result (out.new.items ≡ out.old.items ++ spaced (field.now ∷ [])) }
{
    put(out, b" ")?;
    put(out, field)
}

fn put_number_field(out: &mut Vec<u8>, number: u64) -> Result<(), NoMemory>
    ensures { OnOk result (out.new.items ≡ out.old.items ++ spaced (decimal number ∷ [])) }
{
    put(out, b" ")?;
    put_number(out, number)
}

fn put_integer_field(out: &mut Vec<u8>, number: i64) -> Result<(), NoMemory>
    ensures { OnOk result (out.new.items ≡ out.old.items ++ spaced (signed_decimal number ∷ [])) }
{
    put(out, b" ")?;
    put_integer(out, number as i128)
}

/// Puts the key of a number, where the class has it.
fn put_key(out: &mut Vec<u8>, there: bool, key: &[u8], number: u64) -> Result<(), NoMemory>
    ensures { OnOk result (out.new.items ≡ out.old.items ++ spaced (where_wanted there ((key.now ++ decimal number) ∷ []))) }
{
    if !there {
        return Ok(());
    }
    put_field(out, key)?;
    put_number(out, number)
}

fn put_integer_key(out: &mut Vec<u8>, there: bool, key: &[u8], number: i64) -> Result<(), NoMemory>
    ensures { OnOk result (out.new.items ≡ out.old.items ++ spaced (where_wanted there ((key.now ++ signed_decimal number) ∷ []))) }
{
    if !there {
        return Ok(());
    }
    put_field(out, key)?;
    put_integer(out, number as i128)
}

#[tactic(auto, unfolding(crate::specs::InstanceText::time_key))]
fn put_time(out: &mut Vec<u8>, class: Class, job: &Job) -> Result<(), NoMemory>
    ensures { OnOk result (out.new.items ≡ out.old.items ++ spaced (time_key class job.now)) }
{
    let time = first_time(job.needs.as_slice());
    put_key(out, has_time_key(class), b"p=", time)
}

#[tactic(auto, unfolding(crate::specs::InstanceText::release_key))]
fn put_release(out: &mut Vec<u8>, class: Class, job: &Job) -> Result<(), NoMemory>
    ensures { OnOk result (out.new.items ≡ out.old.items ++ spaced (release_key class job.now)) }
{
    put_key(out, class.heads, b"r=", job.release)
}

#[tactic(auto, unfolding(crate::specs::InstanceText::due_key))]
fn put_due(out: &mut Vec<u8>, class: Class, job: &Job) -> Result<(), NoMemory>
    ensures { OnOk result (out.new.items ≡ out.old.items ++ spaced (due_key class job.now)) }
{
    put_integer_key(out, uses_due(class.crit), b"d=", job.due)
}

#[tactic(auto, unfolding(crate::specs::InstanceText::weight_key))]
fn put_weight(out: &mut Vec<u8>, class: Class, job: &Job) -> Result<(), NoMemory>
    ensures { OnOk result (out.new.items ≡ out.old.items ++ spaced (weight_key class job.now)) }
{
    put_key(out, uses_weight(class.crit), b"w=", job.weight)
}

/// Puts the keys of a job.
#[tactic(auto, using(crate::proofs::PrintLemmas::four))]
fn put_keys(out: &mut Vec<u8>, class: Class, job: &Job) -> Result<(), NoMemory>
    ensures { OnOk result (out.new.items ≡ out.old.items ++ spaced (key_fields class job.now)) }
{
    put_time(out, class, job)?;
    put_release(out, class, job)?;
    put_due(out, class, job)?;
    put_weight(out, class, job)
}

fn put_times(out: &mut Vec<u8>, needs: &[Need]) -> Result<(), NoMemory>
    ensures { OnOk result (out.new.items ≡ out.old.items ++ spaced (map (λ n. decimal n.time) needs.now)) }
{
    for need in needs {
        put_number_field(out, need.time)?;
    }
    Ok(())
}

fn put_operation(out: &mut Vec<u8>, timed: bool, need: Need) -> Result<(), NoMemory>
    ensures { OnOk result (out.new.items ≡ out.old.items ++ spaced (operation_fields timed need)) }
{
    put_number_field(out, need.machine as u64 + 1)?;
    if !timed {
        return Ok(());
    }
    put_number_field(out, need.time)
}

fn put_operations(out: &mut Vec<u8>, timed: bool, needs: &[Need]) -> Result<(), NoMemory>
    ensures { OnOk result (out.new.items ≡ out.old.items ++ spaced (flat_map (operation_fields timed) needs.now)) }
{
    for need in needs {
        put_operation(out, timed, *need)?;
    }
    Ok(())
}

fn put_step(out: &mut Vec<u8>, step: Step) -> Result<(), NoMemory>
    ensures { OnOk result (out.new.items ≡ out.old.items ++ spaced (step_fields step)) }
{
    put_number_field(out, step.above)?;
    put_number_field(out, step.add)
}

fn put_steps(out: &mut Vec<u8>, steps: &[Step]) -> Result<(), NoMemory>
    ensures { OnOk result (out.new.items ≡ out.old.items ++ spaced (flat_map step_fields steps.now)) }
{
    for step in steps {
        put_step(out, *step)?;
    }
    Ok(())
}

fn put_job_fields(out: &mut Vec<u8>, class: Class, name: &[u8], job: &Job) -> Result<(), NoMemory>
    ensures { OnOk result (out.new.items ≡ out.old.items ++ spaced (name.now ∷ key_fields class job.now)) }
{
    put_field(out, name)?;
    put_keys(out, class, job)
}

#[tactic(auto, using(crate::proofs::PrintLemmas::line_rules))]
fn put_job_line(out: &mut Vec<u8>, class: Class, name: &[u8], job: &Job) -> Result<(), NoMemory>
    ensures { OnOk result (out.new.items ≡ out.old.items ++ line_text (job_fields class name.now job.now)) }
{
    put(out, b"job")?;
    put_job_fields(out, class, name, job)?;
    put(out, b"\n")
}

#[tactic(auto, using(crate::proofs::PrintLemmas::line_rules))]
fn put_times_line(out: &mut Vec<u8>, needs: &[Need]) -> Result<(), NoMemory>
    ensures { OnOk result (out.new.items ≡ out.old.items ++ line_text (times_fields needs.now)) }
{
    put(out, b"times")?;
    put_times(out, needs)?;
    put(out, b"\n")
}

#[tactic(auto, using(crate::proofs::PrintLemmas::line_rules))]
fn put_route_line(out: &mut Vec<u8>, timed: bool, needs: &[Need]) -> Result<(), NoMemory>
    ensures { OnOk result (out.new.items ≡ out.old.items ++ line_text (route_fields timed needs.now)) }
{
    put(out, b"route")?;
    put_operations(out, timed, needs)?;
    put(out, b"\n")
}

fn put_curve_fields(out: &mut Vec<u8>, curve: &Curve) -> Result<(), NoMemory>
    ensures { OnOk result (out.new.items ≡ out.old.items ++ spaced (decimal curve.now.slope ∷ signed_decimal curve.now.base ∷ flat_map step_fields curve.now.steps)) }
{
    put_number_field(out, curve.slope)?;
    put_integer_field(out, curve.base)?;
    put_steps(out, curve.steps.as_slice())
}

#[tactic(auto, using(crate::proofs::PrintLemmas::line_rules))]
fn put_curve_line(out: &mut Vec<u8>, curve: &Curve) -> Result<(), NoMemory>
    ensures { OnOk result (out.new.items ≡ out.old.items ++ line_text (curve_fields curve.now)) }
{
    put(out, b"curve")?;
    put_curve_fields(out, curve)?;
    put(out, b"\n")
}

#[tactic(auto, unfolding(crate::specs::InstanceText::times_text))]
fn put_times_text(out: &mut Vec<u8>, class: Class, job: &Job) -> Result<(), NoMemory>
    ensures { OnOk result (out.new.items ≡ out.old.items ++ times_text class job.now) }
{
    if !has_times_line(class) {
        return Ok(());
    }
    put_times_line(out, job.needs.as_slice())
}

#[tactic(auto, unfolding(crate::specs::InstanceText::route_text))]
fn put_route_text(out: &mut Vec<u8>, class: Class, job: &Job) -> Result<(), NoMemory>
    ensures { OnOk result (out.new.items ≡ out.old.items ++ route_text class job.now) }
{
    if !has_route(class.env) {
        return Ok(());
    }
    put_route_line(out, has_times(class.times), job.needs.as_slice())
}

#[tactic(auto, unfolding(crate::specs::InstanceText::curve_text))]
fn put_curve_text(out: &mut Vec<u8>, class: Class, job: &Job) -> Result<(), NoMemory>
    ensures { OnOk result (out.new.items ≡ out.old.items ++ curve_text class job.now) }
{
    if !uses_curve(class.crit) {
        return Ok(());
    }
    put_curve_line(out, &job.curve)
}

/// Puts the lines of a job.
#[tactic(auto, unfolding(crate::specs::InstanceText::job_text))]
fn put_job(out: &mut Vec<u8>, class: Class, name: &[u8], job: &Job) -> Result<(), NoMemory>
    ensures { OnOk result (out.new.items ≡ out.old.items ++ job_text class name.now job.now) }
{
    put_job_line(out, class, name, job)?;
    put_times_text(out, class, job)?;
    put_route_text(out, class, job)?;
    put_curve_text(out, class, job)
}

/// Puts the lines of the job at a place.
fn put_named_job(
    out: &mut Vec<u8>,
    class: Class,
    names: &Names,
    at: usize,
    job: &Job,
) -> Result<(), NoMemory>
    requires { at < length names.now }
    ensures { OnOk result (out.new.items ≡ out.old.items ++ job_text class (name_at names.now at) job.now) }
{
    match names.get(at) {
        Some(name) => put_job(out, class, name.bytes(), job),
        None => unreachable!(),
    }
}

/// Puts the jobs in order, each with its name.
fn put_jobs(out: &mut Vec<u8>, class: Class, names: &Names, jobs: &[Job]) -> Result<(), NoMemory>
    requires { length names.now ≡ length jobs.now }
    ensures { OnOk result (out.new.items ≡ out.old.items ++ jobs_text class names.now jobs.now) }
{
    'jobs: for (at, job) in jobs.iter().enumerate() {
        put_named_job(out, class, names, at, job)?;
    }
    Ok(())
}

#[tactic(auto, using(crate::proofs::PrintLemmas::arc_line))]
fn put_arc(out: &mut Vec<u8>, names: &Names, arc: Arc) -> Result<(), NoMemory>
    ensures { OnOk result (out.new.items ≡ out.old.items ++ line_text (arc_fields names.now arc)) }
{
    put(out, b"arc ")?;
    put_name(out, names, arc.before)?;
    put(out, b" ")?;
    put_name(out, names, arc.after)?;
    put(out, b"\n")
}

fn put_arcs(out: &mut Vec<u8>, names: &Names, arcs: &[Arc]) -> Result<(), NoMemory>
    ensures { OnOk result (out.new.items ≡ out.old.items ++ arcs_text names.now arcs.now) }
{
    for arc in arcs {
        put_arc(out, names, *arc)?;
    }
    Ok(())
}

#[tactic(auto, unfolding(crate::specs::InstanceText::machines_text))]
fn put_machines(out: &mut Vec<u8>, env: Env, machines: u32) -> Result<(), NoMemory>
    ensures { OnOk result (out.new.items ≡ out.old.items ++ machines_text env machines) }
{
    if fixed_machines(env).is_some() {
        return Ok(());
    }
    put(out, b"machines ")?;
    put_number(out, machines as u64)?;
    put(out, b"\n")
}

fn put_speed_fields(out: &mut Vec<u8>, speeds: &[u64]) -> Result<(), NoMemory>
    ensures { OnOk result (out.new.items ≡ out.old.items ++ spaced (map decimal speeds.now)) }
{
    for speed in speeds {
        put_number_field(out, *speed)?;
    }
    Ok(())
}

#[tactic(auto, unfolding(crate::specs::InstanceText::speeds_text), using(crate::proofs::PrintLemmas::line_rules))]
fn put_speeds(out: &mut Vec<u8>, env: Env, speeds: &[u64]) -> Result<(), NoMemory>
    ensures { OnOk result (out.new.items ≡ out.old.items ++ speeds_text env speeds.now) }
{
    if !has_speeds(env) {
        return Ok(());
    }
    put(out, b"speeds")?;
    put_speed_fields(out, speeds)?;
    put(out, b"\n")
}

/// Puts the line with the time that all operations share, where the class has it.
#[tactic(auto, unfolding(crate::specs::InstanceText::time_text))]
fn put_common_time(out: &mut Vec<u8>, times: Times, time: u64) -> Result<(), NoMemory>
    ensures { OnOk result (out.new.items ≡ out.old.items ++ time_text times time) }
{
    if !has_time_line(times) {
        return Ok(());
    }
    put(out, b"time ")?;
    put_number(out, time)?;
    put(out, b"\n")
}

#[tactic(auto, unfolding(crate::specs::InstanceText::class_text))]
fn put_class(out: &mut Vec<u8>, class: Class) -> Result<(), NoMemory>
    ensures { OnOk result (out.new.items ≡ out.old.items ++ class_text (name_of class)) }
{
    put(out, b"class ")?;
    put(out, print(class).bytes())?;
    put(out, b"\n")
}

#[tactic(auto, unfolding(crate::specs::InstanceText::head_text))]
fn put_head(out: &mut Vec<u8>, instance: &Instance) -> Result<(), NoMemory>
    ensures { OnOk result (out.new.items ≡ out.old.items ++ head_text (name_of instance.now.class) instance.now) }
{
    put(out, b"msp 1\n")?;
    put_class(out, instance.class)?;
    put_machines(out, instance.class.env, instance.machines)?;
    put_speeds(out, instance.class.env, instance.speeds.as_slice())?;
    put_common_time(out, instance.class.times, common_time(instance))
}

#[tactic(auto, unfolding(crate::specs::InstanceText::instance_text))]
fn put_instance(out: &mut Vec<u8>, filed: &Filed) -> Result<(), NoMemory>
    requires { length filed.now.names ≡ length filed.now.instance.jobs }
    ensures { OnOk result (out.new.items ≡ out.old.items ++ instance_text (name_of filed.now.instance.class) filed.now.names filed.now.instance) }
{
    let instance = &filed.instance;
    put_head(out, instance)?;
    put_jobs(out, instance.class, &filed.names, instance.jobs.as_slice())?;
    put_arcs(out, &filed.names, instance.arcs.as_slice())?;
    put(out, b"end\n")
}

/// The text of an instance, with the canonical name of its class.
pub fn print_instance(alloc: Global, filed: &Filed) -> Result<Vec<u8>, NoMemory>
    requires in_class { InClass filed.now.instance }
    requires named { length filed.now.names ≡ length filed.now.instance.jobs }
    ensures canonical { IfOk result (λ text. text.items ≡ instance_text (name_of filed.now.instance.class) filed.now.names filed.now.instance) }
    ensures text { IfOk result (λ text. IsInstanceText text.items filed.now.instance filed.now.names) }
{
    // `len` also tells that the names are distinct job names.
    let named = filed.names.len() == filed.instance.jobs.len();
    prove!(named);
    let mut out = Vec::new(alloc);
    put_instance(&mut out, filed)?;
    Ok(out)
}
