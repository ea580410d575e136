// Bits by their numbers, in words of 64.
ghost use Rattle.std.specs.Prelude.{◌≡◌, ◌≢◌, ◌/◌, ◌<◌, ℕ, true, length};
ghost use Rattle.msp_weighted.specs.Values.{is_flagged};

/// Whether the bit of a number is set.
pub(crate) fn is_set(words: &[u64], number: usize) -> bool
    requires { number / 64 < length words.now }
    ensures { result ≡ is_flagged words.now number }
{
    words[number / 64] >> (number % 64) & 1 == 1
}

/// Sets the bit of a number.
pub(crate) fn set_bit(words: &mut [u64], number: usize)
    requires { number / 64 < length words.old }
    ensures set { is_flagged words.new number ≡ true }
    ensures others { (m : ℕ) → m ≢ number → is_flagged words.new m ≡ is_flagged words.old m }
{
    words[number / 64] |= 1 << (number % 64);
}
