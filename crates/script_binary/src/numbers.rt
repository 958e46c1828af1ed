//! So many numbers of a record and no other, and the truth values that they may be.

ghost use Rattle.std.specs.Prelude.{◌≡◌};
ghost use Rattle.text_model.specs.BinaryReading.{none_of, one_of, two_of, three_of, four_of, five_of, truth};

use text_model::BadLine;

/// No number.
pub(crate) fn none_of(numbers: &[u64]) -> Result<(), BadLine>
    ensures { result ≡ none_of numbers.now }
{
    match numbers {
        [] => Ok(()),
        _ => Err(BadLine::Syntax),
    }
}

/// One number.
pub(crate) fn one_of(numbers: &[u64]) -> Result<u64, BadLine>
    ensures { result ≡ one_of numbers.now }
{
    match *numbers {
        [a] => Ok(a),
        _ => Err(BadLine::Syntax),
    }
}

/// Two numbers.
pub(crate) fn two_of(numbers: &[u64]) -> Result<(u64, u64), BadLine>
    ensures { result ≡ two_of numbers.now }
{
    match *numbers {
        [a, b] => Ok((a, b)),
        _ => Err(BadLine::Syntax),
    }
}

/// Three numbers.
pub(crate) fn three_of(numbers: &[u64]) -> Result<(u64, u64, u64), BadLine>
    ensures { result ≡ three_of numbers.now }
{
    match *numbers {
        [a, b, c] => Ok((a, b, c)),
        _ => Err(BadLine::Syntax),
    }
}

/// Four numbers.
pub(crate) fn four_of(numbers: &[u64]) -> Result<(u64, u64, u64, u64), BadLine>
    ensures { result ≡ four_of numbers.now }
{
    match *numbers {
        [a, b, c, d] => Ok((a, b, c, d)),
        _ => Err(BadLine::Syntax),
    }
}

/// Five numbers.
pub(crate) fn five_of(numbers: &[u64]) -> Result<(u64, u64, u64, u64, u64), BadLine>
    ensures { result ≡ five_of numbers.now }
{
    match *numbers {
        [a, b, c, d, e] => Ok((a, b, c, d, e)),
        _ => Err(BadLine::Syntax),
    }
}

/// The truth value that a number is.
pub(crate) fn truth(number: u64) -> Result<bool, BadLine>
    ensures { result ≡ truth number }
{
    match number {
        0 => Ok(false),
        1 => Ok(true),
        _ => Err(BadLine::Syntax),
    }
}
