// Numbers in decimal digits.
ghost use Rattle.std.specs.Prelude.{◌≡◌};
ghost use Rattle.homa_plain.specs.Numbers.{digits_value, in_64_bits, number_of};

// The value of digits, of which there may be none.
fn read_digits(word: &[u8]) -> Option<u64>
    ensures { result ≡ in_64_bits (digits_value 0 word.now) }
{
    let mut n: u64 = 0;
    for c in word {
        if !c.is_ascii_digit() {
            return None;
        }
        let next = u128::from(n) * 10 + u128::from(*c - b'0');
        if next > u128::from(u64::MAX) {
            return None;
        }
        n = next as u64;
    }
    Some(n)
}

/// The number that a word is, from 0 to 2^64 - 1: decimal digits without a leading zero, but for 0 itself.
pub fn read_number(word: &[u8]) -> Option<u64>
    ensures { result ≡ number_of word.now }
{
    match word {
        [] | [b'0', _, ..] => None,
        _ => read_digits(word),
    }
}
