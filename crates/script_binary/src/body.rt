//! What stands behind the tag of a record.
ghost use Rattle.std.specs.Prelude.{◌≡◌, IfOk};
ghost use Rattle.std.specs.Io.KnownBytes.{prepend_known};
ghost use Rattle.text_model.specs.BinaryReading.{body_at};
ghost use Rattle.script_binary.specs.Fields.{HasTag, body_bytes};
ghost use Rattle.script_binary.specs.Taking.{HasBinCause, Takes};

use crate::end::{BinEnd, end_of_bad};
use crate::fields::{field_count, take_fields};
use crate::items::item_with;
use heap_io::Files;
use script_text::Bytes;
use text_model::Item;

/// Takes the numbers behind the tag of a record, and gives the item that they say with the tag.
pub(crate) fn take_body<F: Files>(tag: u8, bytes: &mut Bytes, files: &mut F) -> Result<Item, BinEnd>
    ensures taken { let before = prepend_known bytes.old (F.rest files.old) in
        let after = prepend_known bytes.new (F.rest files.new) in
        Takes (body_at tag) body_bytes before after result }
    ensures item { IfOk result (HasTag tag) }
    ensures cause { HasBinCause (F.faults files.old) (F.faults files.new) bytes.new result }
    ensures bytes { F.bytes files.new ≡ F.bytes files.old }
    ensures may_begin { F.may_begin files.new ≡ F.may_begin files.old }
{
    let Some(count) = field_count(tag) else {
        return Err(BinEnd::Syntax);
    };
    let fields = take_fields(count, bytes, files)?;
    match item_with(tag, &fields[..count]) {
        Ok(item) => Ok(item),
        Err(bad) => Err(end_of_bad(bad)),
    }
}
