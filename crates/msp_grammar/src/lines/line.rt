// Lines and fields.
ghost use Rattle.std.specs.Prelude.{◌≡◌, ◌≢◌, ◌∷◌, [], ◌<◌, ◌≤◌, length, position, count_by, ◌==◌, false, IfOk, IfErr, OnOk, MatchOption, MatchResult, Ok};
ghost use Rattle.std.specs.List.{slice_split};
ghost use Rattle.msp_class.specs.declared.list.TheConstants.{PLACES};
ghost use Rattle.msp_text.specs.Bytes.{space_byte};
ghost use Rattle.msp_grammar.specs.declared.lines.fault.FileFault.TheVariants.{Memory};
ghost use Rattle.msp_grammar.specs.lines.Reading.{line_at, worded_at, word_line_at, field_line_at, fields_of, first_of, others_of, number_line_at, last_at};
ghost use Rattle.msp_grammar.specs.lines.Answers.{Fails, Gives};
ghost use Rattle.msp_grammar.specs.lines.Steps.{Moves, place_of, parts_after, fields_after};

use crate::lines::fault::{FileFault, What};
use crate::lines::number::natural_at;
use crate::lines::place::Lines;
use std::simd::prelude::*;

/// So many bytes are looked at together.
const RUN: usize = 16;

/// The place of the first separator in a run.
fn find_in_run(run: &[u8; RUN], separator: u8) -> Option<usize>
    ensures { result ≡ position (λ x. x == separator) run.now }
{
    let same = u8x16::from_array(*run).simd_eq(u8x16::splat(separator));
    let hits = same.to_bitmask();
    if hits == 0 {
        return None;
    }
    Some(hits.trailing_zeros() as usize)
}

/// The place of the first separator, byte by byte.
fn find_by_one(bytes: &[u8], separator: u8) -> Option<usize>
    ensures { result ≡ position (λ x. x == separator) bytes.now }
{
    bytes.iter().position(|byte| *byte == separator)
}

/// The place of the first separator.
fn find(bytes: &[u8], separator: u8) -> Option<usize>
    ensures { result ≡ position (λ x. x == separator) bytes.now }
{
    let mut at = 0;
    let mut rest = bytes;
    'runs: while let Some((run, others)) = rest.split_first_chunk() {
        if let Some(place) = find_in_run(run, separator) {
            return Some(at + place);
        }
        at += RUN;
        rest = others;
    }
    match find_by_one(rest, separator) {
        Some(place) => Some(at + place),
        None => None,
    }
}

fn count_spaces(bytes: &[u8]) -> usize
    ensures value { result ≡ count_by (λ x. x == space_byte) bytes.now }
    ensures few { result ≤ length bytes.now }
{
    bytes.iter().filter(|byte| **byte == b' ').count()
}

/// The next line, without its line feed.
#[tactic(auto, unfolding(crate::specs::lines::Reading::line_at), using(std::proofs::lemmas::List::take_rest))]
pub fn line_at<'a>(lines: &mut Lines<'a>) -> Result<&'a [u8], FileFault>
    ensures moves { Moves (λ line. line.now) result (place_of lines.new) (line_at (place_of lines.old)) }
    ensures fault { IfErr result (λ e. e ≢ Memory) }
    ensures short { IfOk result (λ line. length line.now < PLACES) }
    ensures shrinks { OnOk result (length lines.new.rest.now < length lines.old.rest.now) }
{
    let at = lines.at;
    let rest = lines.rest;
    match find(rest, b'\n') {
        Some(end) => {
            *lines = Lines {
                at: at + 1,
                rest: &rest[end + 1..],
            };
            Ok(&rest[..end])
        }
        None if rest.is_empty() => Err(FileFault::Missing { at }),
        None => Err(FileFault::Cut { at }),
    }
}

/// The part of a text up to the first separator, and the bytes from the separator on.
#[tactic(auto, using(crate::proofs::reading::Fields::split_rules))]
pub(crate) fn split_first(text: &[u8], separator: u8) -> (&[u8], &[u8])
    ensures parts { slice_split (λ x. x == separator) text.now ≡ result.0.now ∷ parts_after separator result.1.now }
    ensures first { length result.0.now ≤ length text.now }
    ensures short { length result.1.now ≤ length text.now }
{
    match find(text, separator) {
        Some(end) => text.split_at(end),
        None => text.split_at(text.len()),
    }
}

/// The first word of a line, and the bytes from the space behind it on.
pub fn split_word(line: &[u8]) -> (&[u8], &[u8])
    ensures fields { fields_of line.now ≡ result.0.now ∷ fields_after result.1.now }
    ensures word { length result.0.now ≤ length line.now }
    ensures short { length result.1.now ≤ length line.now }
{
    split_first(line, b' ')
}

/// The next field, and the bytes from the space behind it on. No bytes have no field.
pub fn next_field(rest: &[u8]) -> (&[u8], &[u8])
    ensures first { result.0.now ≡ first_of (fields_after rest.now) }
    ensures others { fields_after result.1.now ≡ others_of (fields_after rest.now) }
    ensures whole { 0 < length rest.now → fields_after rest.now ≡ result.0.now ∷ fields_after result.1.now }
    ensures field { length result.0.now ≤ length rest.now }
    ensures shorter { 0 < length rest.now → length result.1.now < length rest.now }
{
    match rest {
        [] => (rest, rest),
        [_, more @ ..] => split_word(more),
    }
}

/// The fields of a line that has two. None comes exactly where it has another number of them.
#[tactic(auto, using(crate::proofs::reading::Fields::two_rules))]
pub fn two_fields(fields: &[u8]) -> Option<(&[u8], &[u8])>
    ensures { MatchOption result ((length (fields_after fields.now) == 2) ≡ false) (λ two. fields_after fields.now ≡ two.0.now ∷ two.1.now ∷ []) }
{
    let (first, others) = next_field(fields);
    let (second, rest) = next_field(others);
    if others.is_empty() || !rest.is_empty() {
        return None;
    }
    Some((first, second))
}

/// How many fields there are.
#[tactic(auto, using(crate::proofs::reading::Fields::fields_counted))]
pub fn count_fields(rest: &[u8]) -> usize
    ensures value { result ≡ length (fields_after rest.now) }
    ensures few { result ≤ length rest.now }
{
    match rest {
        [] => 0,
        [_, more @ ..] => count_spaces(more) + 1,
    }
}

/// The fields of the line that has to come next, from the space behind its first word on.
#[tactic(auto, unfolding(crate::specs::lines::Reading::worded_at))]
pub fn worded_at<'a>(lines: &mut Lines<'a>, word: &[u8]) -> Result<&'a [u8], FileFault>
    ensures moves { Moves (λ rest. fields_after rest.now) result (place_of lines.new) (worded_at word.now (place_of lines.old)) }
    ensures fault { IfErr result (λ e. e ≢ Memory) }
    ensures short { IfOk result (λ rest. length rest.now < PLACES) }
    ensures shrinks { OnOk result (length lines.new.rest.now ≤ length lines.old.rest.now) }
{
    let at = lines.at;
    let line = line_at(lines)?;
    let (first, rest) = split_word(line);
    if *first != *word {
        return Err(FileFault::Line { at });
    }
    Ok(rest)
}

/// A line of one word.
#[tactic(auto, unfolding(crate::specs::lines::Reading::word_line_at))]
pub fn word_line_at(lines: &mut Lines<'_>, word: &[u8]) -> Result<(), FileFault>
    ensures moves { MatchResult result (λ _. word_line_at word.now (place_of lines.old) ≡ Ok (place_of lines.new)) (λ e. Fails e (word_line_at word.now (place_of lines.old))) }
    ensures fault { IfErr result (λ e. e ≢ Memory) }
{
    let at = lines.at;
    let fields = worded_at(lines, word)?;
    if count_fields(fields) != 0 {
        return Err(FileFault::Count { at });
    }
    Ok(())
}

/// The field of a line with one field behind its word.
#[tactic(auto, unfolding(crate::specs::lines::Reading::field_line_at))]
pub fn field_line_at<'a>(lines: &mut Lines<'a>, word: &[u8]) -> Result<&'a [u8], FileFault>
    ensures moves { Moves (λ field. field.now) result (place_of lines.new) (field_line_at word.now (place_of lines.old)) }
    ensures fault { IfErr result (λ e. e ≢ Memory) }
{
    let at = lines.at;
    let fields = worded_at(lines, word)?;
    if count_fields(fields) != 1 {
        return Err(FileFault::Count { at });
    }
    let (field, _) = next_field(fields);
    Ok(field)
}

/// A line with one number of at least 1 behind its word.
#[tactic(auto, unfolding(crate::specs::lines::Reading::number_line_at, crate::specs::lines::Reading::field_line_at))]
pub fn number_line_at(
    lines: &mut Lines<'_>,
    word: &[u8],
    what: What,
    greatest: u64,
) -> Result<u64, FileFault>
    ensures moves { Moves (λ n. n) result (place_of lines.new) (number_line_at word.now what greatest (place_of lines.old)) }
    ensures fault { IfErr result (λ e. e ≢ Memory) }
    ensures range { IfOk result (λ n. (1 ≤ n) × (n ≤ greatest)) }
{
    let at = lines.at;
    let field = field_line_at(lines, word)?;
    natural_at(at, what, 1, greatest, field)
}

/// The last line.
pub fn end_line(at: u32, word: &[u8], fields: &[u8]) -> Result<(), FileFault>
    ensures gives { Gives (λ _. tt) result (last_at at (word.now ∷ fields_after fields.now)) }
    ensures fault { IfErr result (λ e. e ≢ Memory) }
{
    if *word != *b"end".as_slice() {
        return Err(FileFault::Line { at });
    }
    if count_fields(fields) != 0 {
        return Err(FileFault::Count { at });
    }
    Ok(())
}
