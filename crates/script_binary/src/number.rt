//! Numbers of at most 64 bits in groups of seven bits, one byte a group, the lowest first.
ghost use Rattle.std.specs.Prelude.{◌≡◌, suc};
ghost use Rattle.std.specs.Io.KnownBytes.{prepend_known};
ghost use Rattle.text_model.specs.Binary.{groups_of, number_bytes};
ghost use Rattle.text_model.specs.BinaryReading.{groups_at, number_at};
ghost use Rattle.script_binary.specs.Taking.{HasBinCause, Takes, TakesByte};

use crate::end::BinEnd;
use heap_io::{Failed, Files};
use script_text::Bytes;

/// The groups of a number behind the first one, at most.
const MORE_GROUPS: u64 = 9;

/// The least number that has more than 64 bits with a group below it.
const HIGH_LIMIT: u64 = 1 << 57;

/// The next byte. `Syntax` is answered at the input's end.
pub(crate) fn take_byte<F: Files>(bytes: &mut Bytes, files: &mut F) -> Result<u8, BinEnd>
    ensures byte { let before = prepend_known bytes.old (F.rest files.old) in
        let after = prepend_known bytes.new (F.rest files.new) in
        TakesByte before after result }
    ensures cause { HasBinCause (F.faults files.old) (F.faults files.new) bytes.new result }
    ensures bytes { F.bytes files.new ≡ F.bytes files.old }
    ensures may_begin { F.may_begin files.new ≡ F.may_begin files.old }
{
    match bytes.byte(files) {
        Ok(Some(byte)) => Ok(byte),
        Ok(None) => Err(BinEnd::Syntax),
        Err(Failed) => Err(BinEnd::ReadFault),
    }
}

/// The number at the front, which has at most ten groups and no longer spelling.
pub(crate) fn take_number<F: Files>(bytes: &mut Bytes, files: &mut F) -> Result<u64, BinEnd>
    ensures taken { let before = prepend_known bytes.old (F.rest files.old) in
        let after = prepend_known bytes.new (F.rest files.new) in
        Takes number_at number_bytes before after result }
    ensures cause { HasBinCause (F.faults files.old) (F.faults files.new) bytes.new result }
    ensures bytes { F.bytes files.new ≡ F.bytes files.old }
    ensures may_begin { F.may_begin files.new ≡ F.may_begin files.old }
{
    take_groups(MORE_GROUPS, bytes, files)
}

/// The number at the front, which has at most so many groups behind its first.
fn take_groups<F: Files>(more: u64, bytes: &mut Bytes, files: &mut F) -> Result<u64, BinEnd>
    ensures taken { let before = prepend_known bytes.old (F.rest files.old) in
        let after = prepend_known bytes.new (F.rest files.new) in
        Takes (groups_at (suc more)) (groups_of more) before after result }
    ensures cause { HasBinCause (F.faults files.old) (F.faults files.new) bytes.new result }
    ensures bytes { F.bytes files.new ≡ F.bytes files.old }
    ensures may_begin { F.may_begin files.new ≡ F.may_begin files.old }
{
    let byte = take_byte(bytes, files)?;
    if byte < 128 {
        return Ok(u64::from(byte));
    }
    if more == 0 {
        return Err(BinEnd::Syntax);
    }
    let high = take_groups(more - 1, bytes, files)?;
    if high == 0 || high >= HIGH_LIMIT {
        return Err(BinEnd::Syntax);
    }
    Ok(u64::from(byte - 128) + 128 * high)
}
