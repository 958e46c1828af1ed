//! The words of a line, between which single spaces stand, and the numbers that they write.

ghost use Rattle.std.specs.Prelude.{◌≡◌, ◌≢◌, ◌<◌, ◌==◌, length, slice_index, option_map, position};
ghost use Rattle.text_model.specs.Numbers.{number_of, digits_number};
ghost use Rattle.line_text.specs.Reading.{first_word};

use std::str;

/// What stands before the first space, and what behind it. None where there is no space.
pub fn split_word(text: &[u8]) -> Option<(&[u8], &[u8])>
    ensures { option_map (λ parts. (parts.0.now, parts.1.now)) result ≡ first_word text.now }
{
    let at = first_space(text)?;
    Some((&text[..at], &text[at + 1..]))
}

// Where the first space stands.
fn first_space(text: &[u8]) -> Option<usize>
    ensures { result ≡ position (λ byte. byte == 32) text.now }
{
    text.iter().position(|byte| *byte == b' ')
}

/// The number that a word writes: `0`, or digits of which the first is not `0`, and at most 64 bits.
pub fn parse_number(word: &[u8]) -> Option<u64>
    ensures { result ≡ number_of word.now }
{
    if word.is_empty() {
        return None;
    }
    if word[0] == b'0' && word.len() > 1 {
        return None;
    }
    if word[0] == b'+' {
        return None;
    }
    parse_digits(word)
}

// The number of at most 64 bits that the digits write, where the word has digits alone.
fn parse_digits(word: &[u8]) -> Option<u64>
    requires some { 0 < length word.now }
    requires no_sign { slice_index word.now 0 ≢ 43 }
    ensures { result ≡ digits_number word.now }
{
    match str::from_utf8(word) {
        Ok(text) => text.parse().ok(),
        Err(_) => None,
    }
}
