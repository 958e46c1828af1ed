//! One piece after another is written until all of it is taken.
ghost use Rattle.std.specs.Prelude.{◌≡◌, ◌≤◌, ◌++◌, ◌∷◌, [], IsErrOf};
ghost use Rattle.heap_io.specs.Causes.{HasCause, Rose};
ghost use Rattle.text_model.specs.Binary.{item_record};
ghost use Rattle.text_model.specs.ItemLine.{HasLine};
ghost use Rattle.text_model.specs.ItemText.{item_text};
ghost use Rattle.script_convert.specs.Written.{Writes, WritesItem};
ghost use Rattle.script_convert.specs.Reader.{IsSaid};
ghost use Rattle.script_convert.specs.Convert.{item_piece};

use crate::end::ConvertEnd;
use heap_io::{Failed, Sink};
use script_binary::encode_item;
use script_text::print_item;
use text_model::Item;

/// Writes all of a piece, by calls on what is left of it.
pub fn write_all<K: Sink>(out: &mut K, piece: &[u8]) -> Result<(), Failed>
    ensures writes { Writes (K.written out.old) (K.written out.new) piece.now result }
    ensures cause { HasCause (K.faults out.old) (K.faults out.new) result }
{
    let mut at = 0;
    while at < piece.len() {
        at += out.write(&piece[at..])?;
    }
    Ok(())
}

/// Writes the line of an item. What `text` held is gone.
pub(crate) fn write_line<K: Sink>(
    item: &Item,
    text: &mut Vec<u8>,
    out: &mut K,
) -> Result<(), ConvertEnd>
    requires { HasLine item.now }
    ensures writes { WritesItem (K.written out.old) (K.written out.new) (item_text item.now ++ 10 ∷ []) result }
    ensures later { K.faults out.old ≤ K.faults out.new }
    ensures fault { IsErrOf result ConvertEnd.WriteFault → Rose (K.faults out.old) (K.faults out.new) }
{
    text.clear();
    print_item(item, text)?;
    match write_all(out, text) {
        Ok(()) => Ok(()),
        Err(Failed) => Err(ConvertEnd::WriteFault),
    }
}

/// Writes the record of an item. What `record` held is gone.
pub(crate) fn write_record<K: Sink>(
    item: &Item,
    record: &mut Vec<u8>,
    out: &mut K,
) -> Result<(), ConvertEnd>
    requires { HasLine item.now }
    ensures writes { WritesItem (K.written out.old) (K.written out.new) (item_record item.now) result }
    ensures later { K.faults out.old ≤ K.faults out.new }
    ensures fault { IsErrOf result ConvertEnd.WriteFault → Rose (K.faults out.old) (K.faults out.new) }
{
    record.clear();
    encode_item(item, record)?;
    match write_all(out, record) {
        Ok(()) => Ok(()),
        Err(Failed) => Err(ConvertEnd::WriteFault),
    }
}

/// Writes an item in a form, as its line or as its record; of a blank line there is none. What `piece` held may be gone.
pub(crate) fn write_unit<K: Sink>(
    lines: bool,
    item: &Item,
    piece: &mut Vec<u8>,
    out: &mut K,
) -> Result<(), ConvertEnd>
    requires { IsSaid item.now }
    ensures writes { WritesItem (K.written out.old) (K.written out.new) (item_piece lines item.now) result }
    ensures later { K.faults out.old ≤ K.faults out.new }
    ensures fault { IsErrOf result ConvertEnd.WriteFault → Rose (K.faults out.old) (K.faults out.new) }
{
    match item {
        Item::Blank => Ok(()),
        _ => {
            if lines {
                write_line(item, piece, out)
            } else {
                write_record(item, piece, out)
            }
        }
    }
}
