//! What a line of a script says.

ghost use Rattle.std.specs.Prelude.{◌≡◌, ◌↔◌, Ok, false};
ghost use Rattle.text_model.specs.Numbers.{words_of};
ghost use Rattle.text_model.specs.Grammar.{item_of, form_of, setting_of, setting_form, type_form, fixed_shape, destructor_word, end_of_type, is_above_shape};
ghost use Rattle.text_model.specs.ItemLine.{IsLineOf};
ghost use Rattle.script_text.specs.Words.{words_in, type_of};

use crate::objects::parse_command;
use crate::ranges::type_number;
use crate::words::{Words, is_keyword, one_number, split_word, take_end, take_number};
use text_model::{BadLine, Item};
use type_table::{Shape, TypeInfo};

/// What a line says, of which its LF is no part. Its words stand with one space between two; a number is written in
/// decimal digits with no zero in front. `Range` is answered where the line has a form and a number is above the greatest
/// of its place, `Syntax` where it has no form, as with a number of more than 64 bits. It does not allocate. (The grammar is
/// this project's own.)
pub fn parse_line(line: &[u8]) -> Result<Item, BadLine>
    ensures reading { result ≡ item_of line.now }
    ensures grammar { (item : Item) → (result ≡ Ok item) ↔ IsLineOf item line.now }
{
    if line.is_empty() || line[0] == b'#' {
        return Ok(Item::Blank);
    }
    parse_form(line)
}

/// What the words of a line that is not blank say.
#[tactic(auto, unfolding(text_model::specs::Grammar::form_of))]
fn parse_form(line: &[u8]) -> Result<Item, BadLine>
    ensures { result ≡ form_of (words_of line.now) }
{
    let (word, words) = split_word(line);
    if is_keyword(word, b"set") {
        parse_setting(words)
    } else if is_keyword(word, b"type") {
        parse_type(words)
    } else {
        Ok(Item::Command(parse_command(word, words)?))
    }
}

/// `set NAME N`, behind the first word.
#[tactic(auto, unfolding(text_model::specs::Grammar::setting_form))]
fn parse_setting(words: Words<'_>) -> Result<Item, BadLine>
    ensures { result ≡ setting_form (words_in words.entry) }
{
    let Some(text) = words.rest else {
        return Err(BadLine::Syntax);
    };
    let (word, words) = split_word(text);
    let Some(name) = setting_place(word) else {
        return Err(BadLine::Syntax);
    };
    let value = one_number(words)?;
    Ok(Item::Setting { name, value })
}

/// The place of the setting that a word names, counted from 0.
#[tactic(auto, unfolding(text_model::specs::Grammar::setting_of))]
fn setting_place(word: &[u8]) -> Option<u8>
    ensures { result ≡ setting_of word.now }
{
    if word == b"nursery".as_slice() {
        Some(0)
    } else if word == b"young".as_slice() {
        Some(1)
    } else if word == b"limit".as_slice() {
        Some(2)
    } else if word == b"increment".as_slice() {
        Some(3)
    } else if word == b"minimum".as_slice() {
        Some(4)
    } else if word == b"sweep".as_slice() {
        Some(5)
    } else if word == b"pins".as_slice() {
        Some(6)
    } else if word == b"page".as_slice() {
        Some(7)
    } else if word == b"arena".as_slice() {
        Some(8)
    } else if word == b"small".as_slice() {
        Some(9)
    } else if word == b"card".as_slice() {
        Some(10)
    } else if word == b"roots".as_slice() {
        Some(11)
    } else if word == b"queues".as_slice() {
        Some(12)
    } else {
        None
    }
}

/// `type T ..`, behind the first word.
#[tactic(auto, unfolding(text_model::specs::Grammar::type_form, text_model::specs::Grammar::shape_words))]
fn parse_type(words: Words<'_>) -> Result<Item, BadLine>
    ensures { result ≡ type_form (words_in words.entry) }
{
    let (id, words) = take_number(words)?;
    let Some(text) = words.rest else {
        return Err(BadLine::Syntax);
    };
    let (word, words) = split_word(text);
    if word == b"fixed".as_slice() {
        parse_fixed(id, words)
    } else if word == b"ints".as_slice() {
        parse_uncounted(id, Shape::IntArray, words)
    } else if word == b"refs".as_slice() {
        parse_uncounted(id, Shape::RefArray, words)
    } else if word == b"weak".as_slice() {
        parse_uncounted(id, Shape::Weak, words)
    } else {
        Err(BadLine::Syntax)
    }
}

/// A type of a shape with counts, behind the word `fixed`.
fn parse_fixed(id: u64, words: Words<'_>) -> Result<Item, BadLine>
    ensures { result ≡ type_of id (fixed_shape (words_in words.entry)) }
{
    let (ints, words) = take_number(words)?;
    let (refs, words) = take_number(words)?;
    let destructor = destructor_word(words)?;
    let id = type_number(id)?;
    let ints = type_number(ints)?;
    let refs = type_number(refs)?;
    let shape = Shape::Fixed { ints, refs };
    Ok(Item::TypeDef {
        id,
        info: TypeInfo { shape, destructor },
    })
}

/// A type of a shape with no counts, behind the shape's word.
fn parse_uncounted(id: u64, shape: Shape, words: Words<'_>) -> Result<Item, BadLine>
    requires { is_above_shape shape ≡ false }
    ensures { result ≡ type_of id (Ok (shape, words_in words.entry)) }
{
    let destructor = end_of_type(shape, words)?;
    let id = type_number(id)?;
    Ok(Item::TypeDef {
        id,
        info: TypeInfo { shape, destructor },
    })
}

/// Whether the type has a destructor, and no word behind that. A weak type has none.
fn end_of_type(shape: Shape, words: Words<'_>) -> Result<bool, BadLine>
    ensures { result ≡ end_of_type shape (words_in words.entry) }
{
    match shape {
        Shape::Fixed { .. } | Shape::IntArray | Shape::RefArray => destructor_word(words),
        Shape::Weak => {
            take_end(words)?;
            Ok(false)
        }
    }
}

/// Whether `destructor` is the last word, and no other is left.
fn destructor_word(words: Words<'_>) -> Result<bool, BadLine>
    ensures { result ≡ destructor_word (words_in words.entry) }
{
    let Some(text) = words.rest else {
        return Ok(false);
    };
    let (word, words) = split_word(text);
    if word == b"destructor".as_slice() {
        take_end(words)?;
        Ok(true)
    } else {
        Err(BadLine::Syntax)
    }
}
