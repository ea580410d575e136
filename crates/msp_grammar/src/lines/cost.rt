// Costs, and the bounds of certificates.
ghost use Rattle.std.specs.Prelude.{◌≡◌, ◌≢◌, ◌≤◌, IfErr, ℤ};
ghost use Rattle.msp_text.specs.Bytes.{slash_byte};
ghost use Rattle.msp_text.specs.Numbers.{capped};
ghost use Rattle.msp_grammar.specs.declared.limits.TheConstants.{GREATEST_COST};
ghost use Rattle.msp_grammar.specs.declared.lines.fault.FileFault.TheVariants.{Memory};
ghost use Rattle.msp_grammar.specs.lines.Answers.{Gives};
ghost use Rattle.msp_grammar.specs.lines.Costs.{number_at, denominator_at, cost_of, cost_in, cost_line_at};
ghost use Rattle.msp_grammar.specs.lines.Steps.{Moves, spelled_as, parts_of, place_of, parts_after};

use crate::limits::GREATEST_DENOMINATOR;
use crate::lines::fault::{FileFault, What};
use crate::lines::line::{field_line_at, split_first};
use crate::lines::number::with_sign;
use crate::lines::place::Lines;
use msp_pieces::Frac;
use msp_text::{Spelled, read_number};

fn number_at(at: u32, field: &[u8]) -> Result<Spelled, FileFault>
    ensures read { result ≡ spelled_as (number_at at field.now) }
    ensures fault { IfErr result (λ e. e ≢ Memory) }
{
    match read_number(field) {
        Some(number) => Ok(number),
        None => Err(FileFault::Number { at }),
    }
}

/// The denominator behind the first `/`. It is 1 where there is none.
fn denominator_at(at: u32, rest: &[u8]) -> Result<Spelled, FileFault>
    ensures read { result ≡ spelled_as (denominator_at at (parts_after slash_byte rest.now)) }
    ensures fault { IfErr result (λ e. e ≢ Memory) }
{
    match rest {
        [] => Ok(Spelled {
            negative: false,
            size: 1,
        }),
        [_, more @ ..] => {
            let (part, others) = split_first(more, b'/');
            if !others.is_empty() {
                return Err(FileFault::Number { at });
            }
            number_at(at, part)
        }
    }
}

/// A cost whose numbers are in range, its numerator at most this size.
fn cost_of(
    greatest: u128,
    at: u32,
    numerator: Spelled,
    denominator: Spelled,
) -> Result<Frac, FileFault>
    requires { greatest ≤ GREATEST_COST }
    ensures gives { (x y : ℤ) → numerator ≡ capped x → denominator ≡ capped y → Gives parts_of result (cost_of greatest at x y) }
    ensures fault { IfErr result (λ e. e ≢ Memory) }
{
    let limit = Err(FileFault::Limit {
        at,
        what: What::Cost,
    });
    if numerator.size > greatest {
        return limit;
    }
    if denominator.negative
        || denominator.size < 1
        || denominator.size > GREATEST_DENOMINATOR as u128
    {
        return limit;
    }
    Ok(Frac {
        num: with_sign(numerator),
        den: denominator.size as i128,
    })
}

/// A cost: a number, or two with `/` between them.
#[tactic(auto, unfolding(crate::specs::lines::Costs::cost_in), using(crate::proofs::reading::CostReading::cost_rules))]
fn cost_in(greatest: u128, at: u32, field: &[u8]) -> Result<Frac, FileFault>
    requires { greatest ≤ GREATEST_COST }
    ensures gives { Gives parts_of result (cost_in greatest at field.now) }
    ensures fault { IfErr result (λ e. e ≢ Memory) }
{
    let (top, rest) = split_first(field, b'/');
    match number_at(at, top) {
        Ok(numerator) => match denominator_at(at, rest) {
            Ok(denominator) => cost_of(greatest, at, numerator, denominator),
            Err(fault) => Err(fault),
        },
        Err(fault) => Err(fault),
    }
}

/// A cost in the line of this word, its numerator at most this size.
#[tactic(auto, unfolding(crate::specs::lines::Costs::cost_line_at))]
pub fn cost_line_at(lines: &mut Lines<'_>, word: &[u8], greatest: u128) -> Result<Frac, FileFault>
    requires { greatest ≤ GREATEST_COST }
    ensures moves { Moves parts_of result (place_of lines.new) (cost_line_at word.now greatest (place_of lines.old)) }
    ensures fault { IfErr result (λ e. e ≢ Memory) }
{
    let at = lines.at;
    let field = field_line_at(lines, word)?;
    cost_in(greatest, at, field)
}
