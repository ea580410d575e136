// The line of a job.
ghost use Rattle.std.specs.Prelude.{◌≡◌, ◌<◌, ◌≤◌, false, bytes_eq, Err, IfOk};
ghost use Rattle.std.specs.List.{list_any};
ghost use Rattle.msp_class.specs.declared.sizes.TheConstants.{GREATEST};
ghost use Rattle.msp_grammar.specs.lines.Answers.{Gives};
ghost use Rattle.msp_grammar.specs.lines.Reading.{job_name_at};
ghost use Rattle.msp_file.specs.instance.Reading.{keyed_at, natural_key_at, integer_key_at, keys_at, count_of_keys, most_keys, job_line_at};
ghost use Rattle.msp_grammar.specs.lines.Steps.{fields_after};

use msp_class::{Class, uses_due, uses_weight};
use msp_grammar::{
    FileFault, What, count_fields, has_time_key, integer_at, job_name_at, natural_at, next_field,
};
use msp_instance::GREATEST;
use msp_text::{JobName, Names};

/// The numbers in the line of a job. What the class does not write has its neutral value.
#[derive(Clone, Copy)]
pub(crate) struct Keys {
    pub(crate) time: u64,
    pub(crate) release: u64,
    pub(crate) due: i64,
    pub(crate) weight: u64,
}

/// The text behind a key.
fn keyed_at(at: u32, letter: u8, field: &[u8]) -> Result<&[u8], FileFault>
    ensures { Gives (λ w. w.now) result (keyed_at at letter field.now) }
{
    match field {
        [key, b'=', text @ ..] if *key == letter => Ok(text),
        _ => Err(FileFault::Key { at }),
    }
}

/// The number behind a key in the next field, and the fields after it. Without the key it is the least number.
#[tactic(auto, unfolding(crate::specs::instance::Reading::natural_key_at))]
fn natural_key_at(
    at: u32,
    there: bool,
    letter: u8,
    what: What,
    least: u64,
    fields: &[u8],
) -> Result<(u64, &[u8]), FileFault>
    ensures { Gives (λ x. (x.0, fields_after x.1.now)) result (natural_key_at at there letter what least GREATEST (fields_after fields.now)) }
{
    if !there {
        return Ok((least, fields));
    }
    let (field, rest) = next_field(fields);
    let text = keyed_at(at, letter, field)?;
    let number = natural_at(at, what, least, GREATEST, text)?;
    Ok((number, rest))
}

/// The number of either sign behind a key in the next field, and the fields after it. Without the key it is 0.
#[tactic(auto, unfolding(crate::specs::instance::Reading::integer_key_at))]
fn integer_key_at(
    at: u32,
    there: bool,
    letter: u8,
    what: What,
    fields: &[u8],
) -> Result<(i64, &[u8]), FileFault>
    ensures { Gives (λ x. (x.0, fields_after x.1.now)) result (integer_key_at at there letter what GREATEST (fields_after fields.now)) }
{
    if !there {
        return Ok((0, fields));
    }
    let (field, rest) = next_field(fields);
    let text = keyed_at(at, letter, field)?;
    let number = integer_at(at, what, GREATEST as u32, text)?;
    Ok((number, rest))
}

fn count_of_keys(class: Class) -> usize
    ensures value { result ≡ count_of_keys class }
    ensures few { result ≤ most_keys }
{
    has_time_key(class) as usize
        + class.heads as usize
        + uses_due(class.crit) as usize
        + uses_weight(class.crit) as usize
}

/// The keys of a job's line, those of them that the class has.
#[tactic(auto, unfolding(crate::specs::instance::Reading::keys_at))]
fn keys_at(class: Class, at: u32, fields: &[u8]) -> Result<Keys, FileFault>
    ensures { Gives (λ k. k) result (keys_at class at (fields_after fields.now)) }
{
    let (time, rest) = natural_key_at(at, has_time_key(class), b'p', What::Time, 1, fields)?;
    let (release, rest) = natural_key_at(at, class.heads, b'r', What::Release, 0, rest)?;
    let (due, rest) = integer_key_at(at, uses_due(class.crit), b'd', What::Due, rest)?;
    let (weight, _) = natural_key_at(at, uses_weight(class.crit), b'w', What::Weight, 1, rest)?;
    Ok(Keys {
        time,
        release,
        due,
        weight,
    })
}

/// The name and the keys in the line of a job whose name no earlier job has.
#[tactic(auto, unfolding(crate::specs::instance::Reading::job_line_at))]
pub(crate) fn job_line_at(
    class: Class,
    at: u32,
    names: &Names,
    fields: &[u8],
) -> Result<(JobName, Keys), FileFault>
    ensures gives { Gives (λ x. x) result (job_line_at class at names.now (fields_after fields.now)) }
    ensures fresh { IfOk result (λ x. list_any (bytes_eq x.0) names.now ≡ false) }
{
    if count_fields(fields) != 1 + count_of_keys(class) {
        return Err(FileFault::Count { at });
    }
    let (field, rest) = next_field(fields);
    let name = job_name_at(at, field)?;
    let keys = keys_at(class, at, rest)?;
    if names.contains(&name) {
        return Err(FileFault::Again { at });
    }
    Ok((name, keys))
}
