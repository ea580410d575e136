// The numbers of fields.
ghost use Rattle.std.specs.Prelude.{◌≡◌, ◌≢◌, ◌<◌, ◌≤◌, IfOk, IfErr, pos, neg_ℤ, if◌then◌else◌};
ghost use Rattle.msp_instance.specs.Conditions.{LiesWithin};
ghost use Rattle.msp_pieces.specs.Within.{i128_limit};
ghost use Rattle.msp_grammar.specs.declared.lines.fault.FileFault.TheVariants.{Memory};
ghost use Rattle.msp_grammar.specs.lines.Reading.{natural_at, ordinal_at, integer_at};

use crate::lines::fault::{FileFault, What};
use msp_text::{Spelled, read_number};

/// The number of a field, where it is in range.
#[tactic(auto, unfolding(crate::specs::lines::Reading::natural_at))]
pub fn wide_at(
    at: u32,
    what: What,
    least: u128,
    greatest: u128,
    bytes: &[u8],
) -> Result<u128, FileFault>
    requires { greatest < i128_limit }
    ensures value { result ≡ natural_at at what least greatest bytes.now }
    ensures fault { IfErr result (λ e. e ≢ Memory) }
    ensures range { IfOk result (λ n. (least ≤ n) × (n ≤ greatest)) }
{
    let Some(number) = read_number(bytes) else {
        return Err(FileFault::Number { at });
    };
    if number.negative || number.size < least || number.size > greatest {
        return Err(FileFault::Limit { at, what });
    }
    Ok(number.size)
}

/// The same of a number of 64 bits.
pub fn natural_at(
    at: u32,
    what: What,
    least: u64,
    greatest: u64,
    bytes: &[u8],
) -> Result<u64, FileFault>
    ensures value { result ≡ natural_at at what least greatest bytes.now }
    ensures fault { IfErr result (λ e. e ≢ Memory) }
    ensures range { IfOk result (λ n. (least ≤ n) × (n ≤ greatest)) }
{
    match wide_at(at, what, least as u128, greatest as u128, bytes) {
        Ok(number) => Ok(number as u64),
        Err(fault) => Err(fault),
    }
}

/// The number of a field, from 0, where the text counts so many from 1.
#[tactic(auto, unfolding(crate::specs::lines::Reading::ordinal_at))]
pub fn ordinal_at(at: u32, what: What, most: u32, field: &[u8]) -> Result<u32, FileFault>
    ensures { result ≡ ordinal_at at what most field.now }
{
    match natural_at(at, what, 1, most as u64, field) {
        Ok(number) => Ok((number - 1) as u32),
        Err(fault) => Err(fault),
    }
}

/// The number with its sign.
pub(crate) fn with_sign(number: Spelled) -> i128
    requires { number.size < i128_limit }
    ensures { result ≡ (if number.negative then neg_ℤ (pos number.size) else pos number.size) }
{
    let size = number.size as i128;
    if number.negative { -size } else { size }
}

/// The number of a field, of either sign, where its size is in range.
#[tactic(auto, unfolding(crate::specs::lines::Reading::integer_at))]
pub fn signed_at(at: u32, what: What, greatest: u64, bytes: &[u8]) -> Result<i128, FileFault>
    ensures value { result ≡ integer_at at what greatest bytes.now }
    ensures range { IfOk result (λ x. LiesWithin greatest x) }
{
    let Some(number) = read_number(bytes) else {
        return Err(FileFault::Number { at });
    };
    if number.size > greatest as u128 {
        return Err(FileFault::Limit { at, what });
    }
    Ok(with_sign(number))
}

/// The same of a number of 64 bits.
pub fn integer_at(at: u32, what: What, greatest: u32, bytes: &[u8]) -> Result<i64, FileFault>
    ensures { result ≡ integer_at at what greatest bytes.now }
{
    match signed_at(at, what, greatest as u64, bytes) {
        Ok(number) => Ok(number as i64),
        Err(fault) => Err(fault),
    }
}
