//! A reader of records over files.
//!
//! It is the bytes of the file behind the mark, of which those that are not handed out yet are left, beside the number of items
//! handed out and whether the end record was taken.
ghost use Rattle.std.specs.Prelude.{◌≡◌, false};
ghost use Rattle.std.specs.Io.KnownBytes.{prepend_known};
ghost use Rattle.script_binary.specs.Reader.{Reads, unit_number};
ghost use Rattle.script_binary.specs.Taking.{HasBinCause, TakesEnd};

use crate::body::take_body;
use crate::end::BinEnd;
use crate::number::take_byte;
use heap_io::{Failed, Files};
use script_text::Bytes;
use std::marker::Model;
use text_model::Item;

/// The tag of the end record.
const END_TAG: u8 = 0;

/// The greatest number of records of a script, without the end record.
const MAX_RECORDS: u64 = 16_000_000;

/// Reads a binary script record by record. The limit on their number is this project's own.
///
/// Contracts see the bytes that were read and not handed out, the number of items handed out, and whether the end record was
/// taken.
#[derive(Debug, Drop)]
pub struct BinReader {
    bytes: Bytes,
    count: u64,
    ended: bool,
}

impl Model for BinReader {
    ghost use Rattle.std.specs.Prelude.{◌≤◌};
    ghost use Rattle.script_binary.specs.Reader.{BinState, record_limit};

    ghost Value = { BinState };

    ghost view = { λ r. record { held = r.bytes; count = r.count; ended = r.ended } };

    ghost invariant = { λ r. r.count ≤ record_limit };
}

impl BinReader {
    /// A reader of what is ahead of the bytes, behind the mark of a binary script. It allocates nothing.
    pub fn over(bytes: Bytes) -> BinReader
        ensures { result ≡ record { held = bytes; count = 0; ended = false } }
    {
        BinReader {
            bytes,
            count: 0,
            ended: false,
        }
    }

    /// The number of the unit that the next call reads, or that the last call refused. The end record is a unit, and so is
    /// what stands behind it.
    pub fn unit(&self) -> u64
        ensures { result ≡ unit_number self.now }
    {
        if self.ended {
            self.count + 2
        } else {
            self.count + 1
        }
    }

    /// The item of the next record, or `None` at the end record that the input's end follows. It does not allocate.
    ///
    /// The reader is to be used over one file, and not after `None` or an error.
    pub fn next<F: Files>(&mut self, files: &mut F) -> Result<Option<Item>, BinEnd>
        requires { self.old.ended ≡ false }
        ensures reads { Reads self.old self.new (F.rest files.old) (F.rest files.new) result }
        ensures cause { HasBinCause (F.faults files.old) (F.faults files.new) self.new.held result }
        ensures bytes { F.bytes files.new ≡ F.bytes files.old }
        ensures may_begin { F.may_begin files.new ≡ F.may_begin files.old }
    {
        let tag = take_byte(&mut self.bytes, files)?;
        if tag == END_TAG {
            self.ended = true;
            take_end(&mut self.bytes, files)?;
            return Ok(None);
        }
        if self.count == MAX_RECORDS {
            return Err(BinEnd::TooMany);
        }
        let item = take_body(tag, &mut self.bytes, files)?;
        self.count += 1;
        Ok(Some(item))
    }
}

/// That the input ends here. `Syntax` is answered where a byte comes.
fn take_end<F: Files>(bytes: &mut Bytes, files: &mut F) -> Result<(), BinEnd>
    ensures end { let before = prepend_known bytes.old (F.rest files.old) in
        let after = prepend_known bytes.new (F.rest files.new) in
        TakesEnd before after result }
    ensures cause { HasBinCause (F.faults files.old) (F.faults files.new) bytes.new result }
    ensures bytes { F.bytes files.new ≡ F.bytes files.old }
    ensures may_begin { F.may_begin files.new ≡ F.may_begin files.old }
{
    match bytes.byte(files) {
        Ok(None) => Ok(()),
        Ok(Some(_)) => Err(BinEnd::Syntax),
        Err(Failed) => Err(BinEnd::ReadFault),
    }
}
