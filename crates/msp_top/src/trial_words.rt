// The words after `trial`.
ghost use Rattle.std.specs.Prelude.{◌≡◌, ◌∷◌, [], List, ℕ, map, string_bytes, IfOk};
ghost use Rattle.msp_text.specs.Numbers.{number_of};
ghost use Rattle.msp_top.specs.Usage.{number_within, number_then};
ghost use Rattle.msp_top.specs.Words.{ReadsNumber, ReadsTrial};

use crate::command::{GREATEST_SEED, Trial};
use crate::words::{Misfit, read_name};
use msp_class::PLACES;
use msp_instance::MOST_JOBS;
use msp_text::read_number;

/// The number that the bytes spell, if it lies in the range.
fn number_within(bytes: &[u8], least: u32, greatest: u32) -> Option<u32>
    ensures { result ≡ number_within least greatest (number_of bytes.now) }
{
    let Some(number) = read_number(bytes) else {
        return None;
    };
    if number.negative || number.size < least as u128 || number.size > greatest as u128 {
        return None;
    }
    Some(number.size as u32)
}

/// The number in the range that a word at a place, counted from 1, spells.
fn read_in_range(word: &str, place: u64, least: u32, greatest: u32) -> Result<u32, Misfit>
    ensures read { ReadsNumber least greatest word.now place result }
    ensures later { IfOk result (λ _. (later : List ℕ) → number_then place least greatest word.now later ≡ later) }
{
    if word.len() >= PLACES {
        return Err(Misfit::Form);
    }
    match number_within(word.as_bytes(), least, greatest) {
        Some(number) => Ok(number),
        None => Err(Misfit::Number {
            place,
            least,
            greatest,
        }),
    }
}

/// The trial of a name, a number of jobs and a seed.
fn read_three(name: &str, count: &str, start: &str) -> Result<Trial, Misfit>
    ensures { ReadsTrial (name.now ∷ count.now ∷ start.now ∷ []) result }
{
    let class = read_name(name, 2)?;
    let jobs = read_in_range(count, 3, 1, MOST_JOBS as u32)?;
    let seed = read_in_range(start, 4, 0, GREATEST_SEED)?;
    Ok(Trial { class, jobs, seed })
}

/// The trial that the words after `trial` ask for.
pub fn read_trial(words: &[String]) -> Result<Trial, Misfit>
    ensures { ReadsTrial (map string_bytes words.now) result }
{
    if words.len() == 3 {
        read_three(words[0].as_str(), words[1].as_str(), words[2].as_str())
    } else {
        Err(Misfit::Form)
    }
}
