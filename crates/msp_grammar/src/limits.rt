// The limits of costs in schedule texts.
use msp_class::GREATEST_UNIT;

/// The size of the greatest cost's numerator: all numbers of 38 digits. That of a best cost is at most `greatest_total` of `msp_pieces`.
pub const GREATEST_COST: u128 = 99_999_999_999_999_999_999_999_999_999_999_999_999;
/// The greatest denominator of a cost.
pub const GREATEST_DENOMINATOR: u64 = GREATEST_UNIT as u64;
