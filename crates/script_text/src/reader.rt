//! A reader of lines over files.
//!
//! It is a piece of the file, of which the bytes that are not handed out yet are left, beside the
//! number of lines handed out and whether the end was met. The end is kept, so that no read follows.
ghost use Rattle.std.specs.Prelude.{◌≡◌, [], false, IfOk, IsErrOf};
ghost use Rattle.std.specs.Io.KnownBytes.{prepend_known};
ghost use Rattle.script_text.specs.Reader.{IsInStep};
ghost use Rattle.script_text.specs.Reading.{HasReadCause, Reads};
ghost use Rattle.script_text.specs.Taking.{TakesLine};

use crate::bytes::Bytes;
use heap_io::Files;
use std::alloc::{AllocError, Global};
use std::error::Error;
use std::fmt;
use std::marker::Model;

const LF: u8 = b'\n';

/// The greatest number of lines of a script.
const MAX_LINES: u64 = 16_000_000;

/// The greatest number of bytes of a line, without its LF. (This project's own.)
pub const LONGEST_LINE: usize = 200;

/// Why no further line is read.
#[derive(Clone, Copy, Debug, PartialEq, Eq)]
pub enum ReadEnd {
    /// 16,000,000 lines were read, and another begins.
    TooMany,
    /// The line has 201 bytes without an LF.
    TooLong,
    /// A read failed.
    ReadFault,
}

impl fmt::Display for ReadEnd {
    ghost use Rattle.std.specs.Prelude.{Some};
    ghost use Rattle.script_text.specs.Reading.{end_text};

    ghost output = { λ end. Some (end_text end) };

    fn fmt<W: fmt::Write>(&self, f: &mut fmt::Formatter<W>) -> fmt::Result {
        f.write_str(match self {
            ReadEnd::TooMany => "too many lines",
            ReadEnd::TooLong => "a line is too long",
            ReadEnd::ReadFault => "a read failed",
        })
    }
}

impl Error for ReadEnd {}

/// Reads a file line by line. The limits on a script's lines are this project's own.
///
/// Contracts see the bytes that were read and not handed out, the number of lines handed out, and
/// whether the end was met.
#[derive(Debug, Drop)]
pub struct LineReader {
    piece: Bytes,
    count: u64,
    ended: bool,
}

impl Model for LineReader {
    ghost use Rattle.std.specs.Prelude.{◌≤◌};
    ghost use Rattle.script_text.specs.Reader.{ReaderState, line_limit};

    ghost Value = { ReaderState };

    ghost view = { λ r. record { held = r.piece; count = r.count; ended = r.ended } };

    ghost invariant = { λ r. r.count ≤ line_limit };
}

impl LineReader {
    /// A reader at the input's beginning. All its memory is allocated here.
    pub fn new(alloc: Global) -> Result<LineReader, AllocError>
        ensures { IfOk result (λ reader. reader ≡ record { held = []; count = 0; ended = false }) }
    {
        Ok(LineReader {
            piece: Bytes::new(alloc)?,
            count: 0,
            ended: false,
        })
    }

    /// A reader of what is ahead of the bytes, as text. It allocates nothing.
    pub fn over(bytes: Bytes) -> LineReader
        ensures { result ≡ record { held = bytes; count = 0; ended = false } }
    {
        LineReader {
            piece: bytes,
            count: 0,
            ended: false,
        }
    }

    /// The length of the next line, whose bytes are put into the front of `line`, or `None` at the
    /// input's end. The LF at a line's end is no part of it, and a last line may have none.
    ///
    /// The reader is to be used over one file, and not after `None` or an error.
    pub fn next<F: Files>(
        &mut self,
        files: &mut F,
        line: &mut [u8; LONGEST_LINE],
    ) -> Result<Option<usize>, ReadEnd>
        requires { IsInStep self.old (F.rest files.old) }
        ensures reads { Reads self.old self.new (F.rest files.old) (F.rest files.new) line.new result }
        ensures in_step { IsInStep self.new (F.rest files.new) }
        ensures cause { HasReadCause (F.faults files.old) (F.faults files.new) result }
        ensures bytes { F.bytes files.new ≡ F.bytes files.old }
        ensures may_begin { F.may_begin files.new ≡ F.may_begin files.old }
    {
        if self.ended {
            return Ok(None);
        }
        if self.count == MAX_LINES {
            let Some(_) = self.piece.next_byte(files)? else {
                self.ended = true;
                return Ok(None);
            };
            return Err(ReadEnd::TooMany);
        }
        match take_line(&mut self.piece, files, line)? {
            Taken::Whole(length) => {
                self.count += 1;
                Ok(Some(length))
            }
            Taken::Last(length) => {
                self.count += 1;
                self.ended = true;
                Ok(Some(length))
            }
            Taken::Nothing => {
                self.ended = true;
                Ok(None)
            }
        }
    }
}

/// What stood at the front of the rest of a file.
#[derive(Clone, Copy, Debug, PartialEq, Eq)]
enum Taken {
    /// A line of this length, with its LF.
    Whole(usize),
    /// A line of this length, behind which the input ends.
    Last(usize),
    Nothing,
}

/// Takes the line at the front of the rest, with its LF.
fn take_line<F: Files>(
    piece: &mut Bytes,
    files: &mut F,
    line: &mut [u8; LONGEST_LINE],
) -> Result<Taken, ReadEnd>
    ensures taken { let before = prepend_known piece.old (F.rest files.old) in
        let after = prepend_known piece.new (F.rest files.new) in
        TakesLine before after line.new result }
    ensures fault { IsErrOf result ReadEnd.ReadFault → piece.new ≡ [] }
    ensures cause { HasReadCause (F.faults files.old) (F.faults files.new) result }
    ensures bytes { F.bytes files.new ≡ F.bytes files.old }
    ensures may_begin { F.may_begin files.new ≡ F.may_begin files.old }
{
    match piece.held_line(line) {
        Some(length) => Ok(Taken::Whole(length)),
        None => take_bytes(piece, files, line),
    }
}

/// Takes the line at the front of the rest byte by byte, with its LF.
fn take_bytes<F: Files>(
    piece: &mut Bytes,
    files: &mut F,
    line: &mut [u8; LONGEST_LINE],
) -> Result<Taken, ReadEnd>
    ensures taken { let before = prepend_known piece.old (F.rest files.old) in
        let after = prepend_known piece.new (F.rest files.new) in
        TakesLine before after line.new result }
    ensures fault { IsErrOf result ReadEnd.ReadFault → piece.new ≡ [] }
    ensures cause { HasReadCause (F.faults files.old) (F.faults files.new) result }
    ensures bytes { F.bytes files.new ≡ F.bytes files.old }
    ensures may_begin { F.may_begin files.new ≡ F.may_begin files.old }
{
    for length in 0..LONGEST_LINE {
        match piece.next_byte(files)? {
            None if length == 0 => return Ok(Taken::Nothing),
            None => return Ok(Taken::Last(length)),
            Some(LF) => return Ok(Taken::Whole(length)),
            Some(byte) => line[length] = byte,
        }
    }
    match piece.next_byte(files)? {
        None => Ok(Taken::Last(LONGEST_LINE)),
        Some(LF) => Ok(Taken::Whole(LONGEST_LINE)),
        Some(_) => Err(ReadEnd::TooLong),
    }
}
