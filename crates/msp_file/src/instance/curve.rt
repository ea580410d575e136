// The line of a cost curve.
ghost use Rattle.std.specs.Prelude.{◌≡◌, ◌<◌, ◌≤◌, [], length, IfOk, OnOk, MatchResult};
ghost use Rattle.msp_grammar.specs.lines.Answers.{Gives};
ghost use Rattle.msp_file.specs.instance.Reading.{with_step, steps_at, curve_fields_at, curve_line_at, curve_at, steps_in};
ghost use Rattle.msp_grammar.specs.lines.Steps.{Leads, Moves, place_of, fields_after};

use msp_class::{Crit, List, uses_curve};
use msp_grammar::{
    FileFault, Lines, What, count_fields, integer_at, natural_at, next_field, worded_at,
};
use msp_instance::{Curve, GREATEST, MOST_STEPS, Step};
use std::alloc::Global;

/// Puts a step at the end.
fn push_step(steps: &mut List<Step>, above: u64, add: u64) -> Result<(), FileFault>
    ensures { MatchResult result (λ _. steps.new ≡ with_step steps.old above add) (λ e. e ≡ FileFault.Memory) }
{
    steps.put(Step { above, add })?;
    Ok(())
}

/// The threshold and the add in the next two fields, put at the end of the steps.
#[tactic(auto, unfolding(crate::specs::instance::Reading::steps_at))]
fn take_step<'a>(at: u32, steps: &mut List<Step>, rest: &'a [u8]) -> Result<&'a [u8], FileFault>
    requires { 0 < length rest.now }
    ensures leads { Leads (λ more. steps_at at steps.new (fields_after more.now)) result (steps_at at steps.old (fields_after rest.now)) }
    ensures more { IfOk result (λ more. length more.now < length rest.now) }
{
    let (word, others) = next_field(rest);
    if others.is_empty() {
        return Err(FileFault::Count { at });
    }
    let (second, more) = next_field(others);
    let above = natural_at(at, What::Above, 0, GREATEST, word)?;
    let add = natural_at(at, What::Add, 0, GREATEST, second)?;
    push_step(steps, above, add)?;
    Ok(more)
}

#[tactic(auto, unfolding(crate::specs::instance::Reading::steps_at))]
fn steps_at(alloc: Global, at: u32, fields: &[u8]) -> Result<List<Step>, FileFault>
    ensures { Gives (λ x. x) result (steps_at at [] (fields_after fields.now)) }
{
    let mut steps = List::new(alloc);
    let mut rest = fields;
    'fields: while !rest.is_empty() {
        rest = take_step(at, &mut steps, rest)?;
    }
    Ok(steps)
}

/// Slope, base and steps.
#[tactic(auto, unfolding(crate::specs::instance::Reading::curve_fields_at))]
fn curve_fields_at(alloc: Global, at: u32, fields: &[u8]) -> Result<Curve, FileFault>
    ensures { Gives (λ x. x) result (curve_fields_at at (fields_after fields.now)) }
{
    let (first, others) = next_field(fields);
    let slope = natural_at(at, What::Slope, 0, GREATEST, first)?;
    let (second, rest) = next_field(others);
    let base = integer_at(at, What::Base, GREATEST as u32, second)?;
    let steps = steps_at(alloc, at, rest)?;
    Ok(Curve { slope, base, steps })
}

fn steps_in(fields: usize) -> usize
    ensures { result ≡ steps_in fields }
{
    fields.saturating_sub(1) / 2
}

/// The line with a job's cost curve.
#[tactic(auto, unfolding(crate::specs::instance::Reading::curve_line_at))]
fn curve_line_at(alloc: Global, lines: &mut Lines<'_>) -> Result<Curve, FileFault>
    ensures moves { Moves (λ x. x) result (place_of lines.new) (curve_line_at (place_of lines.old)) }
    ensures shrinks { OnOk result (length lines.new.rest.now ≤ length lines.old.rest.now) }
{
    let at = lines.at;
    let fields = worded_at(lines, b"curve")?;
    let count = count_fields(fields);
    let steps = steps_in(count);
    if steps > MOST_STEPS {
        return Err(FileFault::Limit {
            at,
            what: What::Steps,
        });
    }
    if count != 2 + 2 * steps {
        return Err(FileFault::Count { at });
    }
    curve_fields_at(alloc, at, fields)
}

/// The cost curve of a job, where the criterion has one.
#[tactic(auto, unfolding(crate::specs::instance::Reading::curve_at))]
pub(crate) fn curve_at(alloc: Global, crit: Crit, lines: &mut Lines<'_>) -> Result<Curve, FileFault>
    ensures moves { Moves (λ x. x) result (place_of lines.new) (curve_at crit (place_of lines.old)) }
    ensures shrinks { OnOk result (length lines.new.rest.now ≤ length lines.old.rest.now) }
{
    if uses_curve(crit) {
        return curve_line_at(alloc, lines);
    }
    Ok(Curve {
        slope: 0,
        base: 0,
        steps: List::new(alloc),
    })
}
