//! The greatest numbers of each place in a line. (This project's own.)

ghost use Rattle.std.specs.Prelude.{◌≡◌};
ghost use Rattle.text_model.specs.Range.{is_above_ids, is_above_items, is_above_counts};
ghost use Rattle.script_text.specs.Words.{words_in, unless_above, one_slot, two_slots};

use crate::words::{Words, one_number, two_numbers};
use text_model::BadLine;

const GREATEST_ITEM: u64 = 16_777_216;

const GREATEST_OWN: u64 = 4_294_967_295;

/// The number of a root slot, a queue or a structure.
pub fn slot_number(number: u64) -> Result<u32, BadLine>
    ensures { result ≡ unless_above (is_above_ids number) number }
{
    u16::try_from(number)
        .map(u32::from)
        .map_err(|_| BadLine::Range)
}

/// A type id, or a count of a fixed type.
pub fn type_number(number: u64) -> Result<u16, BadLine>
    ensures { result ≡ unless_above (is_above_ids number) number }
{
    u16::try_from(number).map_err(|_| BadLine::Range)
}

/// An item of an object, a length, or a count of items.
pub fn item_number(number: u64) -> Result<u64, BadLine>
    ensures { result ≡ unless_above (is_above_items number) number }
{
    if number > GREATEST_ITEM {
        return Err(BadLine::Range);
    }
    Ok(number)
}

/// The own count of a structure.
pub fn own_number(number: u64) -> Result<u64, BadLine>
    ensures { result ≡ unless_above (is_above_counts number) number }
{
    if number > GREATEST_OWN {
        return Err(BadLine::Range);
    }
    Ok(number)
}

/// One slot, queue or structure, and no word behind its number.
pub fn one_slot(words: Words<'_>) -> Result<u32, BadLine>
    ensures { result ≡ one_slot (words_in words.entry) }
{
    let slot = one_number(words)?;
    slot_number(slot)
}

/// Two of them, and no word behind their numbers.
pub fn two_slots(words: Words<'_>) -> Result<(u32, u32), BadLine>
    ensures { result ≡ two_slots (words_in words.entry) }
{
    let (a, b) = two_numbers(words)?;
    Ok((slot_number(a)?, slot_number(b)?))
}

/// A slot and a queue, and no word behind their numbers.
pub fn slot_and_queue(words: Words<'_>) -> Result<(u32, u64), BadLine>
    ensures { result ≡ two_slots (words_in words.entry) }
{
    let (slot, queue) = two_slots(words)?;
    Ok((slot, u64::from(queue)))
}
