//! The numbers of a record, behind its tag.
ghost use Rattle.std.specs.Prelude.{◌≡◌, ◌≤◌, slice_get, IfOk, length};
ghost use Rattle.std.specs.Io.KnownBytes.{prepend_known};
ghost use Rattle.text_model.specs.Binary.{numbers_bytes};
ghost use Rattle.text_model.specs.BinaryReading.{count_of, numbers_at};
ghost use Rattle.script_binary.specs.Taking.{HasBinCause, Takes};
ghost use Rattle.script_binary.specs.Fields.{numbers_read};

use crate::end::BinEnd;
use crate::number::take_number;
use heap_io::Files;
use script_text::Bytes;

/// The greatest number of fields of a record.
pub(crate) const MAX_FIELDS: usize = 5;

/// How many fields settings and types have, by their tags from 1 on.
const SETUP_FIELDS: [usize; 5] = [2, 4, 2, 2, 1];

/// How many fields commands have, by their tags from 16 on.
const COMMAND_FIELDS: [usize; 30] = [
    2, 3, 3, 3, 2, 3, 3, 5, 2, 1, 2, 1, 1, 1, 1, 1, 2, 2, 2, 5, 1, 1, 1, 1, 2, 0, 0, 0, 0, 0,
];

/// How many fields stand behind a tag, if it is an item's.
#[tactic(auto, unfolding(text_model::specs::BinaryReading::count_of))]
pub(crate) fn field_count(tag: u8) -> Option<usize>
    ensures { result ≡ count_of tag }
{
    if tag == 0 {
        None
    } else if tag < 16 {
        count_at(&SETUP_FIELDS, tag - 1)
    } else {
        count_at(&COMMAND_FIELDS, tag - 16)
    }
}

/// The count at a place, if there is one.
fn count_at(counts: &[usize], place: u8) -> Option<usize>
    ensures { result ≡ slice_get counts.now place }
{
    counts.get(usize::from(place)).copied()
}

/// Takes so many numbers, and puts them into the front of an array. What was behind them there is 0.
pub(crate) fn take_fields<F: Files>(
    count: usize,
    bytes: &mut Bytes,
    files: &mut F,
) -> Result<[u64; MAX_FIELDS], BinEnd>
    requires { count ≤ 5 }
    ensures taken { let before = prepend_known bytes.old (F.rest files.old) in
        let after = prepend_known bytes.new (F.rest files.new) in
        Takes (numbers_at count) numbers_bytes before after (numbers_read count result) }
    ensures long { IfOk result (λ fields. length fields ≡ 5) }
    ensures cause { HasBinCause (F.faults files.old) (F.faults files.new) bytes.new result }
    ensures bytes { F.bytes files.new ≡ F.bytes files.old }
    ensures may_begin { F.may_begin files.new ≡ F.may_begin files.old }
{
    let mut fields = [0; MAX_FIELDS];
    for index in 0..count {
        fields[index] = take_number(bytes, files)?;
    }
    Ok(fields)
}
