//! The bytes of a file, one by one, of which the file is asked in pieces.
//!
//! A piece is a buffer of 4,096 bytes. Those from `start` up to `end` were read and not taken yet.
ghost use Rattle.std.specs.Prelude.{◌≡◌, ◌<◌, length, take, [], ◌∷◌, ◌++◌, IfOk, IfSome, IfNone, OnErr, IsErrOf, MatchOption};
ghost use Rattle.std.specs.Io.KnownBytes.{prepend_known};
ghost use Rattle.heap_io.specs.Causes.{HasCause};
ghost use Rattle.script_text.specs.Mark.{TestsMark, BreaksMark, ReadsBehind};
ghost use Rattle.script_text.specs.Reading.{HasReadCause};
ghost use Rattle.script_text.specs.Taking.{Refills, GivesByte, TakesByte, IsLineOf, IsEndOfLine};

use crate::reader::{LONGEST_LINE, ReadEnd};
use heap_io::{Failed, Files};
use std::alloc::{AllocError, Global};
use std::marker::Model;

/// The greatest number of bytes that one read asks for.
const PIECE: usize = 4096;

/// The bytes with which a binary script begins.
const MARK: [u8; 4] = *b"PGH2";

/// The bytes of a file from its beginning. Contracts see those that were read and not taken yet.
#[derive(Debug, Drop)]
pub struct Bytes {
    buf: Vec<u8>,
    start: usize,
    end: usize,
}

impl Model for Bytes {
    ghost use Rattle.std.specs.Prelude.{◌≡◌, ◌-◌, ◌≤◌, List, ℕ, drop, take, vec_len};

    ghost Value = { List ℕ };

    ghost view = { λ p. take (p.end - p.start) (drop p.start p.buf.items) };

    ghost invariant = { λ p. (p.start ≤ p.end) × (p.end ≤ vec_len p.buf) × (vec_len p.buf ≡ 4096) };
}

impl Bytes {
    /// The input's beginning. All its memory is allocated here.
    pub fn new(alloc: Global) -> Result<Bytes, AllocError>
        ensures { IfOk result (λ bytes. bytes ≡ []) }
    {
        Ok(Bytes {
            buf: vec![in alloc; 0; PIECE]?,
            start: 0,
            end: 0,
        })
    }

    /// Whether the input begins with the four bytes of a binary script, which are then taken. Else what is ahead stays.
    /// It is to be asked before any byte is taken, and reads on only while the bytes seen are a front of the four. After a
    /// fault nothing is said of what was read. (The form is this project's own.)
    pub fn is_binary<F: Files>(&mut self, files: &mut F) -> Result<bool, Failed>
        requires { self.old ≡ [] }
        ensures tests { IfOk result (λ binary. TestsMark (F.rest files.old) (prepend_known self.new (F.rest files.new)) binary) }
        ensures breaks { OnErr result (BreaksMark (F.rest files.old) (F.rest files.new)) }
        ensures cause { HasCause (F.faults files.old) (F.faults files.new) result }
        ensures bytes { F.bytes files.new ≡ F.bytes files.old }
        ensures may_begin { F.may_begin files.new ≡ F.may_begin files.old }
    {
        self.start = 0;
        self.end = 0;
        while self.end < MARK.len() && MARK.starts_with(&self.buf[..self.end]) {
            match read_behind(&mut self.buf, self.end, files) {
                Ok(0) => return Ok(false),
                Ok(count) => self.end += count,
                Err(Failed) => return Err(Failed),
            }
        }
        let binary = self.buf[..self.end].starts_with(&MARK);
        if binary {
            self.start = MARK.len();
        }
        Ok(binary)
    }

    /// The next byte, or `None` at the input's end. It fails only where the count of faults rises, and no byte is then held.
    pub fn byte<F: Files>(&mut self, files: &mut F) -> Result<Option<u8>, Failed>
        ensures byte { let before = prepend_known self.old (F.rest files.old) in
            let after = prepend_known self.new (F.rest files.new) in
            GivesByte before after result }
        ensures fault { OnErr result (self.new ≡ []) }
        ensures cause { HasCause (F.faults files.old) (F.faults files.new) result }
        ensures bytes { F.bytes files.new ≡ F.bytes files.old }
        ensures may_begin { F.may_begin files.new ≡ F.may_begin files.old }
    {
        self.refill(files)?;
        Ok(self.pop())
    }

    /// The next byte, as a reader of lines answers. After a fault no byte is left of the piece.
    pub(crate) fn next_byte<F: Files>(&mut self, files: &mut F) -> Result<Option<u8>, ReadEnd>
        ensures byte { let before = prepend_known self.old (F.rest files.old) in
            let after = prepend_known self.new (F.rest files.new) in
            TakesByte before after result }
        ensures fault { IsErrOf result ReadEnd.ReadFault → self.new ≡ [] }
        ensures cause { HasReadCause (F.faults files.old) (F.faults files.new) result }
        ensures bytes { F.bytes files.new ≡ F.bytes files.old }
        ensures may_begin { F.may_begin files.new ≡ F.may_begin files.old }
    {
        match self.byte(files) {
            Ok(byte) => Ok(byte),
            Err(Failed) => Err(ReadEnd::ReadFault),
        }
    }

    /// Takes the line at the front with its LF, where the bytes that were read hold it and it is no longer than a line may be. Its
    /// bytes are put into the front of `line`, and the answer is its length. Else it takes nothing.
    pub(crate) fn held_line(&mut self, line: &mut [u8; LONGEST_LINE]) -> Option<usize>
        ensures line { IfSome result (λ n. IsLineOf line.new n) }
        ensures taken { IfSome result (λ n. self.old ≡ take n line.new ++ 10 ∷ self.new) }
        ensures none { IfNone result (self.new ≡ self.old) }
    {
        let held = &self.buf[self.start..self.end];
        let Some(length) = line_length(held) else {
            return None;
        };
        if length > LONGEST_LINE {
            return None;
        }
        line[..length].copy_from_slice(&held[..length]);
        self.start += length + 1;
        Some(length)
    }

    /// Reads a piece, if no byte is left of the last one.
    fn refill<F: Files>(&mut self, files: &mut F) -> Result<(), Failed>
        ensures refills { Refills self.old self.new (F.rest files.old) (F.rest files.new) result }
        ensures cause { HasCause (F.faults files.old) (F.faults files.new) result }
        ensures bytes { F.bytes files.new ≡ F.bytes files.old }
        ensures may_begin { F.may_begin files.new ≡ F.may_begin files.old }
    {
        if self.start < self.end {
            return Ok(());
        }
        self.start = 0;
        self.end = 0;
        match files.read(&mut self.buf) {
            Ok(count) => {
                self.end = count;
                Ok(())
            }
            Err(failed) => Err(failed),
        }
    }

    /// Takes the byte at the front.
    fn pop(&mut self) -> Option<u8>
        ensures { MatchOption result
            ((self.old ≡ []) × (self.new ≡ []))
            (λ byte. self.old ≡ byte ∷ self.new) }
    {
        if self.start == self.end {
            return None;
        }
        let byte = self.buf[self.start];
        self.start += 1;
        Some(byte)
    }
}

/// Reads bytes from the front of the rest into the part of a buffer behind a place, and says how many.
fn read_behind<F: Files>(buf: &mut [u8], from: usize, files: &mut F) -> Result<usize, Failed>
    requires { from < length buf.old }
    ensures reads { ReadsBehind from buf.old buf.new (F.rest files.old) (F.rest files.new) result }
    ensures cause { HasCause (F.faults files.old) (F.faults files.new) result }
    ensures bytes { F.bytes files.new ≡ F.bytes files.old }
    ensures may_begin { F.may_begin files.new ≡ F.may_begin files.old }
{
    files.read(&mut buf[from..])
}

/// The number of bytes in front of the first LF.
fn line_length(bytes: &[u8]) -> Option<usize>
    ensures { IfSome result (λ n. IsEndOfLine bytes.now n) }
{
    for (at, byte) in bytes.iter().enumerate() {
        if *byte == b'\n' {
            return Some(at);
        }
    }
    None
}
