// The lines of a certificate that each job has, in order.
ghost use Rattle.std.specs.Prelude.{◌≡◌, ◌+◌, ◌^◌, ◌<◌, ◌≤◌, ℕ, [], List as Items, Result as Reading, length, drop, codes, OnOk};
ghost use Rattle.msp_grammar.specs.declared.lines.fault.FileFault.{FileFault as Fault};
ghost use Rattle.msp_grammar.specs.lines.Answers.{Gives};
ghost use Rattle.msp_cert_text.specs.Reading.{named_field_at, named_line_at, numbers_at, level_at, head_at, price_at};
ghost use Rattle.msp_grammar.specs.lines.Steps.{Leads, Moves, place_of, fields_after};

use crate::kinds::{GREATEST_LEVEL, MOST_LINES};
use msp_cert::{GREATEST_HEAD, GREATEST_PRICE};
use msp_class::List;
use msp_grammar::{
    FileFault, Lines, What, count_fields, job_name_at, natural_at, next_field, signed_at, worded_at,
};
use msp_text::{JobName, Names};
use std::alloc::Global;

/// The field behind the name in the line that the job of this name has.
#[tactic(auto, unfolding(crate::specs::Reading::named_field_at))]
fn named_field_at<'a>(
    before: usize,
    name: &JobName,
    at: u32,
    fields: &'a [u8],
) -> Result<&'a [u8], FileFault>
    ensures { Gives (λ field. field.now) result (named_field_at before name.now at (fields_after fields.now)) }
{
    if before >= MOST_LINES {
        return Err(FileFault::Limit {
            at,
            what: What::Lines,
        });
    }
    if count_fields(fields) != 2 {
        return Err(FileFault::Count { at });
    }
    let (first, others) = next_field(fields);
    let given = job_name_at(at, first)?;
    if given != *name {
        return Err(FileFault::Unknown { at });
    }
    let (field, _) = next_field(others);
    Ok(field)
}

/// The field behind the name in the line of this word that has to come next.
#[tactic(auto, unfolding(crate::specs::Reading::named_line_at))]
fn named_line_at<'a>(
    lines: &mut Lines<'a>,
    word: &[u8],
    before: usize,
    name: &JobName,
) -> Result<&'a [u8], FileFault>
    ensures { Moves (λ field. field.now) result (place_of lines.new) (named_line_at word.now before name.now (place_of lines.old)) }
{
    let at = lines.at;
    let fields = worded_at(lines, word)?;
    named_field_at(before, name, at, fields)
}

/// A number that each job has in a line of its own.
trait Listed: Drop + Sized {
    /// How the field is read.
    ghost reads: { ℕ → Items ℕ → Reading Self Fault };

    /// The number in the field.
    fn read(at: u32, field: &[u8]) -> Result<Self, FileFault>
        ensures { result ≡ reads at field.now };
}

/// A level.
impl Listed for u32 {
    ghost reads = { level_at };

    fn read(at: u32, field: &[u8]) -> Result<u32, FileFault> {
        match natural_at(at, What::Level, 0, GREATEST_LEVEL as u64, field) {
            Ok(level) => Ok(level as u32),
            Err(fault) => Err(fault),
        }
    }
}

/// A head.
impl Listed for u64 {
    ghost reads = { head_at };

    fn read(at: u32, field: &[u8]) -> Result<u64, FileFault> {
        natural_at(at, What::Head, 0, GREATEST_HEAD, field)
    }
}

/// A price.
impl Listed for i128 {
    ghost reads = { price_at };

    fn read(at: u32, field: &[u8]) -> Result<i128, FileFault> {
        signed_at(at, What::Price, GREATEST_PRICE, field)
    }
}

/// The number of the job at a place, put at the end of the numbers. So many lines of the kind stand before the first one.
#[tactic(auto, using(crate::proofs::ListedLaws::numbers_rules))]
fn take_number<T: Listed>(
    names: &Names,
    word: &[u8],
    before: usize,
    k: usize,
    numbers: &mut List<T>,
    lines: &mut Lines<'_>,
) -> Result<(), FileFault>
    requires inside { k < length names.now }
    requires small { before + k < 2 ^ 64 }
    requires place { length numbers.old ≡ k }
    ensures leads { Leads (λ _. numbers_at T.reads word.now before numbers.new (drop (k + 1) names.now) (place_of lines.new))
        result (numbers_at T.reads word.now before numbers.old (drop k names.now) (place_of lines.old)) }
    ensures place { OnOk result (length numbers.new ≡ k + 1) }
{
    let at = lines.at;
    let name = names.get(k).unwrap();
    let field = named_line_at(lines, word, before + k, &name)?;
    let number = T::read(at, field)?;
    numbers.put(number)?;
    Ok(())
}

/// A number for each job.
#[tactic(auto, unfolding(crate::specs::Reading::numbers_at))]
fn numbers_at<T: Listed>(
    alloc: Global,
    names: &Names,
    word: &[u8],
    before: usize,
    lines: &mut Lines<'_>,
) -> Result<List<T>, FileFault>
    requires { before ≤ 1 }
    ensures { Moves (λ x. x) result (place_of lines.new) (numbers_at T.reads word.now before [] names.now (place_of lines.old)) }
{
    let mut numbers = List::new(alloc);
    'jobs: for k in 0..names.len() {
        take_number(names, word, before, k, &mut numbers, lines)?;
    }
    Ok(numbers)
}

/// A level for each job.
pub(crate) fn levels_at(
    alloc: Global,
    names: &Names,
    lines: &mut Lines<'_>,
) -> Result<List<u32>, FileFault>
    ensures { Moves (λ x. x) result (place_of lines.new) (numbers_at level_at (codes "level") 1 [] names.now (place_of lines.old)) }
{
    numbers_at::<u32>(alloc, names, b"level", 1, lines)
}

/// A head for each job.
pub(crate) fn heads_at(
    alloc: Global,
    names: &Names,
    lines: &mut Lines<'_>,
) -> Result<List<u64>, FileFault>
    ensures { Moves (λ x. x) result (place_of lines.new) (numbers_at head_at (codes "head") 0 [] names.now (place_of lines.old)) }
{
    numbers_at::<u64>(alloc, names, b"head", 0, lines)
}

/// A price for each job.
pub(crate) fn rows_at(
    alloc: Global,
    names: &Names,
    lines: &mut Lines<'_>,
) -> Result<List<i128>, FileFault>
    ensures { Moves (λ x. x) result (place_of lines.new) (numbers_at price_at (codes "row") 0 [] names.now (place_of lines.old)) }
{
    numbers_at::<i128>(alloc, names, b"row", 0, lines)
}
