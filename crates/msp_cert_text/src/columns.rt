// The lines of the prices of positions.
ghost use Rattle.std.specs.Prelude.{◌≡◌, ◌+◌, ◌-◌, ◌*◌, ◌<◌, ◌≤◌, ◌^◌, [], ◌++◌, ◌∷◌, length, IsTrue, OnOk, IfOk};
ghost use Rattle.msp_cert_text.specs.declared.kinds.TheConstants.{MOST_LINES};
ghost use Rattle.msp_grammar.specs.lines.Answers.{Gives};
ghost use Rattle.msp_grammar.specs.lines.Reading.{first_of, others_of, lines_from};
ghost use Rattle.msp_cert_text.specs.CertificateText.{column_lines};
ghost use Rattle.msp_cert_text.specs.Reading.{filled, position_at, column_price_at, column_added, columns_step};
ghost use Rattle.msp_grammar.specs.lines.Steps.{Moves, AfterLine, place_of, fields_after};

use crate::kinds::is_word;
use crate::segments::has_room;
use msp_cert::GREATEST_PRICE;
use msp_class::{List, NoMemory};
use msp_grammar::{
    FileFault, Lines, What, count_fields, end_line, line_at, next_field, ordinal_at, signed_at,
    split_word,
};
use std::alloc::Global;

/// The numbers of jobs and of machines.
#[derive(Clone, Copy)]
pub(crate) struct Counts {
    pub(crate) jobs: u32,
    pub(crate) machines: u32,
}

/// So many times as many.
pub(crate) fn product(a: u32, b: u32) -> u64
    ensures value { result ≡ a * b }
    ensures small { result ≤ (2 ^ 32 - 1) * (2 ^ 32 - 1) }
{
    a as u64 * b as u64
}

/// The number of a position among those of all machines.
#[tactic(auto, unfolding(crate::specs::Reading::position_at))]
fn position_at(at: u32, counts: Counts, fields: &[u8]) -> Result<u64, FileFault>
    ensures { Gives (λ k. k) result (position_at counts.jobs counts.machines at (fields_after fields.now)) }
{
    let (first, others) = next_field(fields);
    let (second, _) = next_field(others);
    match ordinal_at(at, What::Machines, counts.machines, first) {
        Ok(machine) => match ordinal_at(at, What::Place, counts.jobs, second) {
            Ok(place) => Ok(product(machine, counts.jobs) + place as u64),
            Err(fault) => Err(fault),
        },
        Err(fault) => Err(fault),
    }
}

/// The price of a position, which is less than 0.
#[tactic(auto, unfolding(crate::specs::Reading::column_price_at))]
fn column_price_at(at: u32, field: &[u8]) -> Result<i128, FileFault>
    ensures { Gives (λ x. x) result (column_price_at at field.now) }
{
    let price = signed_at(at, What::Price, GREATEST_PRICE, field)?;
    if price >= 0 {
        return Err(FileFault::Limit {
            at,
            what: What::Price,
        });
    }
    Ok(price)
}

/// Puts as many prices of 0 at the end as make them so many.
#[tactic(auto, using(crate::proofs::ColumnLaws::fill_rules))]
pub(crate) fn fill(prices: &mut List<i128>, count: u64) -> Result<(), NoMemory>
    ensures { OnOk result (prices.new ≡ filled count prices.old) }
{
    'prices: while (prices.len() as u64) < count {
        prices.put(0)?;
    }
    Ok(())
}

/// Puts the price of a position behind those so far, and 0 for the positions between.
fn put_price(prices: &mut List<i128>, position: u64, price: i128) -> Result<(), NoMemory>
    ensures { OnOk result (prices.new ≡ filled position prices.old ++ price ∷ []) }
{
    fill(prices, position)?;
    prices.put(price)
}

/// The third field from here on.
fn third_field(fields: &[u8]) -> &[u8]
    ensures { result.now ≡ first_of (others_of (others_of (fields_after fields.now))) }
{
    let (_, others) = next_field(fields);
    let (_, rest) = next_field(others);
    let (field, _) = next_field(rest);
    field
}

/// The price in the line with these fields, put behind those so far.
#[tactic(auto, unfolding(crate::specs::Reading::column_added))]
fn column_added(
    at: u32,
    counts: Counts,
    prices: &mut List<i128>,
    fields: &[u8],
) -> Result<(), FileFault>
    ensures { Gives (λ _. prices.new) result (column_added counts.jobs counts.machines at prices.old (fields_after fields.now)) }
{
    if count_fields(fields) != 3 {
        return Err(FileFault::Count { at });
    }
    let position = position_at(at, counts, fields)?;
    let price = column_price_at(at, third_field(fields))?;
    if (prices.len() as u64) > position {
        return Err(FileFault::Again { at });
    }
    put_price(prices, position, price)?;
    Ok(())
}

/// Reads a line after so many of the kind and these prices, and answers whether it is the price of a position.
#[tactic(auto, unfolding(crate::specs::Reading::columns_step))]
fn columns_step(
    counts: Counts,
    before: usize,
    used: usize,
    prices: &mut List<i128>,
    lines: &mut Lines<'_>,
) -> Result<bool, FileFault>
    requires used { used ≡ length (column_lines counts.jobs 0 prices.old) }
    ensures after { AfterLine (columns_step counts.jobs counts.machines before) result prices.old (place_of lines.old) prices.new (place_of lines.new) }
    ensures shrinks { OnOk result (length lines.new.rest.now < length lines.old.rest.now) }
    ensures room { IfOk result (λ yes. IsTrue yes → used < MOST_LINES) }
{
    let at = lines.at;
    let line = line_at(lines)?;
    let (word, fields) = split_word(line);
    if is_word(word, b"column") {
        if !has_room(before, used) {
            return Err(FileFault::Limit {
                at,
                what: What::Lines,
            });
        }
        column_added(at, counts, prices, fields)?;
        return Ok(true);
    }
    end_line(at, word, fields)?;
    Ok(false)
}

/// Reads the lines of prices of positions, after so many of the kind, up to the last one.
pub(crate) fn columns_at(
    alloc: Global,
    counts: Counts,
    before: usize,
    lines: &mut Lines<'_>,
) -> Result<List<i128>, FileFault>
    ensures { Moves (λ x. x) result (place_of lines.new) (lines_from (columns_step counts.jobs counts.machines before) [] (place_of lines.old)) }
{
    let mut prices = List::new(alloc);
    let mut used: usize = 0;
    'lines: while columns_step(counts, before, used, &mut prices, lines)? {
        used += 1;
    }
    Ok(prices)
}
