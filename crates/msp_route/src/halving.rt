// The least bound of a range for which a question is met, by halving.
ghost use Rattle.std.specs.Prelude.{◌≡◌, ◌≤◌, pos, ◌+ℤ◌, ◌≤ℤ◌, ◌<ℤ◌, IfOk, if◌then◌else◌};
ghost use Rattle.msp_instance.specs.Conditions.{LiesWithin};
ghost use Rattle.msp_route.specs.Halving.{greatest_limit, IsLeastBound, IsRange, IsShorter};

use crate::question::Question;
use msp_class::NoMemory;
use std::alloc::Global;

/// Bounds, of which the greater is met and none below the lesser.
#[derive(Clone, Copy)]
pub struct Range {
    pub low: i128,
    pub high: i128,
}

/// The middle of the range.
fn middle_of(range: Range) -> i128
    requires some { range.low <ℤ range.high }
    requires low { LiesWithin greatest_limit range.low }
    requires high { LiesWithin greatest_limit range.high }
    ensures low { range.low ≤ℤ result }
    ensures high { result <ℤ range.high }
    ensures half { ((result +ℤ result) ≤ℤ (range.low +ℤ range.high)) × ((range.low +ℤ range.high) ≤ℤ ((result +ℤ result) +ℤ pos 1)) }
{
    range.low + (range.high - range.low) / 2
}

/// The half of the range in which the least bound lies, where `middle` is met or not.
fn halved(range: Range, middle: i128, met: bool) -> Range
    requires { middle <ℤ range.high }
    ensures low { result.low ≡ (if met then range.low else middle +ℤ pos 1) }
    ensures high { result.high ≡ (if met then middle else range.high) }
{
    if met {
        Range {
            low: range.low,
            high: middle,
        }
    } else {
        Range {
            low: middle + 1,
            high: range.high,
        }
    }
}

/// The part of the range in which the least bound lies, by whether `middle` is met.
fn asked<Q: Question>(
    question: &Q,
    alloc: Global,
    range: Range,
    middle: i128,
) -> Result<Range, NoMemory>
    requires asked { Q.may_ask question.now }
    requires small { Q.limit question.now ≤ greatest_limit }
    requires range { IsRange (Q.met question.now) (Q.limit question.now) range }
    requires low { range.low ≤ℤ middle }
    requires high { middle <ℤ range.high }
    ensures range { IfOk result (IsRange (Q.met question.now) (Q.limit question.now)) }
    ensures fewer { IfOk result (IsShorter range) }
{
    let met = question.ask(alloc, middle)?;
    Ok(halved(range, middle, met))
}

/// The range after the bound below its greatest is asked for.
fn asked_at_end<Q: Question>(question: &Q, alloc: Global, range: Range) -> Result<Range, NoMemory>
    requires asked { Q.may_ask question.now }
    requires small { Q.limit question.now ≤ greatest_limit }
    requires range { IsRange (Q.met question.now) (Q.limit question.now) range }
    ensures { IfOk result (IsRange (Q.met question.now) (Q.limit question.now)) }
{
    if range.low < range.high {
        return asked(question, alloc, range, range.high - 1);
    }
    Ok(range)
}

/// The least bound that is met. As it is mostly the greatest of the range, the one below that is asked for first.
pub fn least_in<Q: Question>(question: &Q, alloc: Global, range: Range) -> Result<i128, NoMemory>
    requires asked { Q.may_ask question.now }
    requires small { Q.limit question.now ≤ greatest_limit }
    requires range { IsRange (Q.met question.now) (Q.limit question.now) range }
    ensures least { IfOk result (IsLeastBound (Q.met question.now)) }
    ensures small { IfOk result (LiesWithin (Q.limit question.now)) }
{
    let mut range = asked_at_end(question, alloc, range)?;
    while range.low < range.high {
        range = asked(question, alloc, range, middle_of(range))?;
    }
    Ok(range.high)
}
