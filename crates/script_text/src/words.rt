//! The words of a line, each of which a space ends or the end of the line. What is still to be read is the part of the
//! line behind the last space that was met.

ghost use Rattle.std.specs.Prelude.{◌≡◌, ◌∷◌, bytes_eq, codes, ◌^◌};
ghost use Rattle.text_model.specs.Numbers.{words_of, number_word, no_word, one_number, two_numbers, three_numbers, five_numbers};
ghost use Rattle.text_model.specs.CommandGrammar.{kind_word};
ghost use Rattle.script_text.specs.Words.{words_in, Gives};

use crate::numbers::parse_number;
use text_model::BadLine;

/// The words that are still to be read.
#[derive(Clone, Copy, Debug)]
pub struct Words<'a> {
    /// The part of the line behind the last space that was met; none once the line's end was met.
    pub rest: Option<&'a [u8]>,
}

/// The first word of a text, and those behind it.
pub fn split_word(text: &[u8]) -> (&[u8], Words<'_>)
    ensures { words_of text.now ≡ result.0.now ∷ words_in result.1 }
{
    for (at, byte) in text.iter().enumerate() {
        if *byte == b' ' {
            let rest = Some(&text[at + 1..]);
            return (&text[..at], Words { rest });
        }
    }
    (text, Words { rest: None })
}

/// Whether a word is a keyword. Most words are told by their first byte.
#[tactic(auto, using(crate::proofs::Separated::other_front))]
pub fn is_keyword(word: &[u8], keyword: &[u8]) -> bool
    ensures { result ≡ bytes_eq word.now keyword.now }
{
    if !word.is_empty() && !keyword.is_empty() && word[0] != keyword[0] {
        return false;
    }
    word == keyword
}

/// The number that the first word writes, and the words behind it.
pub fn take_number(words: Words<'_>) -> Result<(u64, Words<'_>), BadLine>
    ensures { Gives (λ x. (x.0, words_in x.1)) result (number_word (words_in words.entry)) }
{
    let Some(text) = words.rest else {
        return Err(BadLine::Syntax);
    };
    let (word, behind) = split_word(text);
    match parse_number(word) {
        Some(number) => Ok((number, behind)),
        None => Err(BadLine::Syntax),
    }
}

/// That no word is left.
#[tactic(auto, using(crate::proofs::Separated::no_word_of_text))]
pub fn take_end(words: Words<'_>) -> Result<(), BadLine>
    ensures { Gives (λ _. tt) result (no_word (words_in words.entry)) }
{
    match words.rest {
        None => Ok(()),
        Some(_) => Err(BadLine::Syntax),
    }
}

/// Whether the first word is `light` or `plain`, and the words behind it.
pub fn take_kind(words: Words<'_>) -> Result<(bool, Words<'_>), BadLine>
    ensures { Gives (λ x. (x.0, words_in x.1)) result (kind_word (words_in words.entry)) }
{
    let Some(text) = words.rest else {
        return Err(BadLine::Syntax);
    };
    let (word, behind) = split_word(text);
    if word == b"light".as_slice() {
        Ok((true, behind))
    } else if word == b"plain".as_slice() {
        Ok((false, behind))
    } else {
        Err(BadLine::Syntax)
    }
}

/// One number, and no word behind it.
pub fn one_number(words: Words<'_>) -> Result<u64, BadLine>
    ensures { result ≡ one_number (words_in words.entry) }
{
    let (a, words) = take_number(words)?;
    take_end(words)?;
    Ok(a)
}

/// Two numbers, and no word behind them.
pub fn two_numbers(words: Words<'_>) -> Result<(u64, u64), BadLine>
    ensures { result ≡ two_numbers (words_in words.entry) }
{
    let (a, words) = take_number(words)?;
    let b = one_number(words)?;
    Ok((a, b))
}

/// Three numbers, and no word behind them.
pub fn three_numbers(words: Words<'_>) -> Result<(u64, u64, u64), BadLine>
    ensures { result ≡ three_numbers (words_in words.entry) }
{
    let (a, words) = take_number(words)?;
    let (b, c) = two_numbers(words)?;
    Ok((a, b, c))
}

/// Five numbers, and no word behind them.
pub fn five_numbers(words: Words<'_>) -> Result<(u64, u64, u64, u64, u64), BadLine>
    ensures { result ≡ five_numbers (words_in words.entry) }
{
    let (a, words) = take_number(words)?;
    let (b, words) = take_number(words)?;
    let (c, d, e) = three_numbers(words)?;
    Ok((a, b, c, d, e))
}
