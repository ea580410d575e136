// Decimal numbers, put and read.
ghost use Rattle.std.specs.Prelude.{◌≡◌, ◌-◌, ◌<◌, ◌^◌, min, true, All, IsTrue};
ghost use Rattle.std.specs.Char.{is_ascii_digit, digit_value};
ghost use Rattle.std.specs.List.{list_all};
ghost use Rattle.std.specs.Option.{option_map};
ghost use Rattle.std.specs.Str.Parse.{digits_value};
ghost use Rattle.msp_text.specs.Numbers.{is_natural, is_positive, natural_of, negative_of, number_of, capped};

/// A number as a text spells it. A size beyond its type is the greatest one.
#[derive(Clone, Copy)]
pub struct Spelled {
    pub negative: bool,
    pub size: u128,
}

fn are_digits(bytes: &[u8]) -> bool
    ensures value { result ≡ list_all is_ascii_digit bytes.now }
    ensures all { IsTrue result → All (λ b. is_ascii_digit b ≡ true) bytes.now }
{
    bytes.iter().all(|byte| byte.is_ascii_digit())
}

fn is_natural(bytes: &[u8]) -> bool
    ensures value { result ≡ is_natural bytes.now }
    ensures all { IsTrue result → All (λ b. is_ascii_digit b ≡ true) bytes.now }
{
    match bytes {
        [] => false,
        [digit] => digit.is_ascii_digit(),
        [first, ..] => *first != b'0' && are_digits(bytes),
    }
}

fn is_positive(bytes: &[u8]) -> bool
    ensures value { result ≡ is_positive bytes.now }
    ensures all { IsTrue result → All (λ b. is_ascii_digit b ≡ true) bytes.now }
{
    match bytes {
        [] => false,
        [first, ..] => *first != b'0' && are_digits(bytes),
    }
}

fn digit(byte: u8) -> u128
    requires { is_ascii_digit byte ≡ true }
    ensures value { result ≡ digit_value byte }
    ensures small { result < 10 }
{
    (byte - b'0') as u128
}

/// The number that the digits write.
fn size_of(digits: &[u8]) -> u128
    requires { All (λ b. is_ascii_digit b ≡ true) digits.now }
    ensures { result ≡ min (digits_value 10 digits.now) (2 ^ 128 - 1) }
{
    let mut size: u128 = 0;
    for byte in digits {
        size = size.saturating_mul(10).saturating_add(digit(*byte));
    }
    size
}

/// The number that the bytes spell, if they spell one: `0`, or a digit from 1 to 9 and further digits, with one `-` in front where it
/// is negative.
#[tactic(auto, unfolding(crate::specs::Numbers::number_of))]
pub fn read_number(bytes: &[u8]) -> Option<Spelled>
    ensures { result ≡ option_map capped (number_of bytes.now) }
{
    match bytes {
        [] => None,
        [b'-', digits @ ..] => negative(digits),
        _ => natural(bytes),
    }
}

fn natural(digits: &[u8]) -> Option<Spelled>
    ensures { result ≡ option_map capped (natural_of digits.now) }
{
    if !is_natural(digits) {
        return None;
    }
    Some(Spelled {
        negative: false,
        size: size_of(digits),
    })
}

#[tactic(auto, using(crate::proofs::Numbers::negative_spelled))]
fn negative(digits: &[u8]) -> Option<Spelled>
    ensures { result ≡ option_map capped (negative_of digits.now) }
{
    if !is_positive(digits) {
        return None;
    }
    Some(Spelled {
        negative: true,
        size: size_of(digits),
    })
}
