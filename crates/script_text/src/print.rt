//! Lines that are written as words with one space between two. Where memory runs out, what was in the buffer stays at
//! its front, and behind it may stand a part of the line.

ghost use Rattle.std.specs.Prelude.{◌≡◌, ◌<◌, ◌^◌, ◌++◌, ◌∷◌, [], All, OnOk, OnErr};
ghost use Rattle.text_model.specs.ItemText.{joined, decimals};
ghost use Rattle.script_text.specs.Printing.{spaced, Extends};

use itoa::Buffer;
use std::alloc::AllocError;

/// Appends a line: its first word, then numbers with a space before each, and LF.
pub fn print_line(first: &[u8], numbers: &[u64], out: &mut Vec<u8>) -> Result<(), AllocError>
    ensures ok { OnOk result (out.new.items ≡ out.old.items ++ (joined (first.now ∷ decimals numbers.now) ++ 10 ∷ [])) }
    ensures sized { All (λ n. n < 2 ^ 64) numbers.now }
    ensures err { OnErr result (Extends out.old.items out.new.items) }
{
    out.extend_from_slice(first)?;
    print_numbers(numbers, out)?;
    out.extend_from_slice(b"\n")
}

/// Appends numbers with a space before each.
pub fn print_numbers(numbers: &[u64], out: &mut Vec<u8>) -> Result<(), AllocError>
    ensures ok { OnOk result (out.new.items ≡ out.old.items ++ spaced (decimals numbers.now)) }
    ensures err { OnErr result (Extends out.old.items out.new.items) }
{
    let mut buffer = Buffer::new();
    for number in numbers {
        out.extend_from_slice(b" ")?;
        out.extend_from_slice(buffer.format(*number).as_bytes())?;
    }
    Ok(())
}
