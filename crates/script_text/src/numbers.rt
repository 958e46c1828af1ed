//! Whole numbers of at most 64 bits, in digits.

ghost use Rattle.std.specs.Prelude.{◌≡◌};
ghost use Rattle.text_model.specs.Numbers.{number_of, digits_number};

/// The number that a word writes: `0`, or digits of which the first is not `0`.
pub fn parse_number(word: &[u8]) -> Option<u64>
    ensures { result ≡ number_of word.now }
{
    if word.is_empty() {
        return None;
    }
    if word[0] == b'0' && word.len() > 1 {
        return None;
    }
    parse_digits(word)
}

/// The number that digits write.
fn parse_digits(digits: &[u8]) -> Option<u64>
    ensures { result ≡ digits_number digits.now }
{
    let mut value: u64 = 0;
    for byte in digits {
        if !byte.is_ascii_digit() {
            return None;
        }
        value = value.checked_mul(10)?.checked_add(u64::from(byte - b'0'))?;
    }
    Some(value)
}
