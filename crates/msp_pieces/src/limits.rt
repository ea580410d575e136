// The limits of the schedules that the calls take, and of those that texts state.

/// The greatest unit on unrelated machines, where the instance is beyond the limits of texts. It is so small that `GREATEST_MULTIPLE` times it is
/// a unit, and that dates, which are so many times greater, stay within `greatest_scaled` over it.
pub const GREATEST_CARRIED_UNIT: i128 = 4096;
/// The greatest moment: at least that of a schedule that is brought back over rows (`msp_route`), and so small that the costs of `MOST_JOBS`
/// jobs together fit 128 bits.
pub const GREATEST_MOMENT: i128 = 200_000_000_000_000_000_000_000_000;
/// The greatest size of a numerator that `compare` takes: at least the greatest bound of a certificate text. Times the greatest denominator it
/// fits 128 bits.
pub const GREATEST_COMPARED_NUMERATOR: u128 = 1 << 80;
/// The greatest denominator that `compare` takes: at least the greatest unit.
pub const GREATEST_COMPARED_DENOMINATOR: u128 = 1 << 44;
