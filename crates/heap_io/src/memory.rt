//! Files and a sink in memory, which fail at the calls that they are told to fail at.
//!
//! The files are a vector of names with bytes. What is still to be read is kept as the index of the
//! file begun last and a place in its bytes. The sink is one vector, whose room is taken at once.
ghost use Rattle.std.specs.Prelude.{◌≡◌, ◌+◌, ◌<◌, ◌≤◌, ◌↔◌, [], ◌++◌, IfSome, IfNone, IfOk, OnOk, OnErr, IsErr, IsTrue, length, min, slice_get};
ghost use Rattle.std.specs.Io.{ReadsAtMost};
ghost use Rattle.std.specs.Io.KnownBytes.{ReadConsumes};
ghost use Rattle.heap_io.specs.Calls.{IsToFail, after_fault, after_success, before_calls};
ghost use Rattle.heap_io.specs.Causes.{HasCause, next_count};
ghost use Rattle.heap_io.specs.Memory.{BeginFails, WriteFails, bytes_of, bytes_or_none, left_of, names_differ};

use crate::calls::Calls;
use crate::copy::copy_front;
use crate::{Failed, Files, Sink};
use std::alloc::{AllocError, Global};
use std::marker::Model;

/// A file in memory. Contracts see its name and its bytes as two lists.
#[derive(Debug, Drop)]
pub struct NamedFile {
    pub name: Vec<u8>,
    pub bytes: Vec<u8>,
}

impl Model for NamedFile {
    ghost use Rattle.heap_io.specs.Memory.{NamedBytes};

    ghost Value = { NamedBytes };

    ghost view = { λ f. record { name = f.name.items; bytes = f.bytes.items } };
}

/// How many bytes a read gives at most, where nothing else is set.
const PIECE: usize = 4096;

/// Files in memory, by their names. Of the calls that begin a file or read, which are counted
/// together from 1, those on a list fail. A read gives 4,096 bytes at most, where nothing else is set.
#[derive(Debug, Drop)]
pub struct MemFiles {
    files: Vec<NamedFile>,
    current: usize,
    at: usize,
    begun: u64,
    /// How many bytes a read gives at most.
    most: usize,
    calls: Calls,
}

impl Model for MemFiles {
    ghost use Rattle.std.specs.Prelude.{◌<◌, ◌≤◌, IsTrue, length, slice_get};
    ghost use Rattle.heap_io.specs.Memory.{FilesInMemory, bytes_or_none, left_of, names_differ};

    ghost Value = { FilesInMemory };

    ghost view = { λ m. record {
      files = m.files.items;
      rest = left_of m.files.items m.current m.at;
      begun = m.begun;
      most = m.most;
      calls = m.calls;
    } };

    ghost invariant = { λ m. IsTrue (names_differ m.files.items)
        × (m.at ≤ length (bytes_or_none (slice_get m.files.items m.current)))
        × (0 < m.most) };
}

impl MemFiles {
    /// Files of which none is begun yet, so that nothing is left to be read.
    pub fn new(files: Vec<NamedFile>, fails: Vec<u64>) -> MemFiles
        requires { IsTrue (names_differ files.items) }
        ensures { result ≡ record { files = files.items; rest = []; begun = 0; most = 4096; calls = before_calls fails.items } }
    {
        let current = files.len();
        MemFiles {
            files,
            current,
            at: 0,
            begun: 0,
            most: PIECE,
            calls: Calls::new(fails),
        }
    }

    /// Sets how many bytes a read gives at most, so that files come in smaller pieces.
    pub fn set_most(&mut self, most: usize)
        requires { 0 < most }
        ensures { self.new ≡ record self.old { most = most } }
    {
        self.most = most;
    }

    /// How many calls failed.
    pub fn faults(&self) -> u64
        ensures { result ≡ self.now.calls.faults }
    {
        self.calls.faults()
    }
}

impl Files for MemFiles {
    ghost use Rattle.std.specs.Prelude.{Some, true};
    ghost use Rattle.heap_io.specs.Memory.{bytes_of};

    ghost bytes = { λ m name. bytes_of m.files name };

    ghost rest = { λ m. Some m.rest };

    ghost faults = { λ m. m.calls.faults };

    ghost begun = { λ m. Some m.begun };

    ghost may_begin = { λ _ _. true };

    /// Begins the file of a name. It fails exactly where the call is on the list or no file has the
    /// name, and only the counts then change.
    fn begin_file(&mut self, name: &[u8]) -> Result<(), Failed>
        ensures failed { IsErr result ↔ BeginFails self.old name.now }
        ensures begun { OnOk result (Some self.new.rest ≡ bytes_of self.old.files name.now) }
        ensures files { self.new.files ≡ self.old.files }
        ensures most { self.new.most ≡ self.old.most }
        ensures ok { OnOk result (self.new.calls ≡ after_success self.old.calls) }
        ensures counted { OnOk result (self.new.begun ≡ next_count self.old.begun) }
        ensures err { OnErr result (self.new ≡ record self.old { calls = after_fault self.old.calls }) }
        ensures cause { HasCause self.old.calls.faults self.new.calls.faults result }
    {
        self.calls.count_call()?;
        let Some(index) = index_of(&self.files, name) else {
            return Err(self.calls.count_fault());
        };
        self.current = index;
        self.at = 0;
        self.begun = self.begun.saturating_add(1);
        Ok(())
    }

    /// Fills the buffer as far as the rest and the bound on a read go. It fails exactly where the call
    /// is on the list, and only the counts then change.
    fn read(&mut self, buf: &mut [u8]) -> Result<usize, Failed>
        requires { 0 < length buf.old }
        ensures failed { IsErr result ↔ IsToFail self.old.calls }
        ensures full { IfOk result (λ count. count ≡ min (min (length self.old.rest) self.old.most) (length buf.old)) }
        ensures bound { ReadsAtMost result buf.new }
        ensures taken { ReadConsumes (Some self.old.rest) (Some self.new.rest) result buf.new }
        ensures files { self.new.files ≡ self.old.files }
        ensures most { self.new.most ≡ self.old.most }
        ensures counted { self.new.begun ≡ self.old.begun }
        ensures ok { OnOk result (self.new.calls ≡ after_success self.old.calls) }
        ensures err { OnErr result (self.new ≡ record self.old { calls = after_fault self.old.calls }) }
        ensures cause { HasCause self.old.calls.faults self.new.calls.faults result }
    {
        self.calls.count_call()?;
        let left = bytes_left(&self.files, self.current, self.at);
        let front = left.len().min(self.most);
        let count = copy_front(&left[..front], buf);
        self.at += count;
        Ok(count)
    }
}

/// The index of the file with a name.
fn index_of(files: &[NamedFile], name: &[u8]) -> Option<usize>
    ensures found { IfSome result (λ index. Some (left_of files.now index 0) ≡ bytes_of files.now name.now) }
    ensures none { IfNone result (bytes_of files.now name.now ≡ None) }
{
    for (index, file) in files.iter().enumerate() {
        if file.name.as_slice() == name {
            return Some(index);
        }
    }
    None
}

/// What is left of the file at an index from a place on. Behind the last file there is nothing.
fn bytes_left(files: &[NamedFile], index: usize, at: usize) -> &[u8]
    requires { at ≤ length (bytes_or_none (slice_get files.now index)) }
    ensures left { result.now ≡ left_of files.now index at }
    ensures within { at + length result.now ≤ usize.MAX }
{
    match files.get(index) {
        Some(file) => &file.bytes[at..],
        None => &[],
    }
}

/// A sink in memory, which takes each piece whole. Of the calls, counted from 1, those on a list
/// fail.
#[derive(Debug, Drop)]
pub struct MemSink {
    bytes: Vec<u8>,
    room: usize,
    calls: Calls,
}

impl Model for MemSink {
    ghost use Rattle.std.specs.Prelude.{◌≤◌, vec_capacity, vec_len};
    ghost use Rattle.heap_io.specs.Memory.{SinkInMemory};

    ghost Value = { SinkInMemory };

    ghost view = { λ s. record { written = s.bytes.items; room = s.room; calls = s.calls } };

    ghost invariant = { λ s. (vec_len s.bytes ≤ s.room) × (s.room ≤ vec_capacity s.bytes) };
}

impl MemSink {
    /// A sink for so many bytes. All its memory is allocated here.
    pub fn new(alloc: Global, room: usize, fails: Vec<u64>) -> Result<MemSink, AllocError>
        ensures { IfOk result (λ sink.
            sink ≡ record { written = []; room = room; calls = before_calls fails.items }) }
    {
        Ok(MemSink {
            bytes: Vec::with_capacity(alloc, room)?,
            room,
            calls: Calls::new(fails),
        })
    }

    /// The bytes written so far.
    pub fn written(&self) -> &[u8]
        ensures { result.now ≡ self.now.written }
    {
        self.bytes.as_slice()
    }

    /// How many calls failed.
    pub fn faults(&self) -> u64
        ensures { result ≡ self.now.calls.faults }
    {
        self.calls.faults()
    }
}

impl Sink for MemSink {
    ghost use Rattle.std.specs.Prelude.{Some};

    ghost written = { λ s. Some s.written };

    ghost faults = { λ s. s.calls.faults };

    /// Takes the piece whole. It fails exactly where the call is on the list or the piece exceeds
    /// the room left, and only the counts then change.
    fn write(&mut self, piece: &[u8]) -> Result<usize, Failed>
        requires { 0 < length piece.now }
        ensures failed { IsErr result ↔ WriteFails self.old piece.now }
        ensures whole { IfOk result (λ count. count ≡ length piece.now) }
        ensures ok { OnOk result (self.new ≡ record self.old {
          written = self.old.written ++ piece.now;
          calls = after_success self.old.calls;
        }) }
        ensures err { OnErr result (self.new ≡ record self.old { calls = after_fault self.old.calls }) }
        ensures cause { HasCause self.old.calls.faults self.new.calls.faults result }
    {
        self.calls.count_call()?;
        if self.room - self.bytes.len() < piece.len() {
            return Err(self.calls.count_fault());
        }
        self.bytes.extend_from_slice(piece).unwrap();
        Ok(piece.len())
    }
}
