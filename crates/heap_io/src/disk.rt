//! Files of the disk, and a sink over any writer: the edge to the machine.
//!
//! Each is std's own file or writer beside a counter. No contract can say which bytes the machine
//! gives or takes, so neither tells any.
ghost use Rattle.std.specs.Prelude.{◌≡◌, ◌<◌, ◌≤◌, IfOk, length};
ghost use Rattle.std.specs.Io.{ReadsAtMost};
ghost use Rattle.heap_io.specs.Causes.{CountsErrors, HasCause};

use crate::{Failed, Files, Sink};
use std::fs;
use std::io::{Read, Write};
use std::marker::Model;

/// The files of the disk. A name is a path in UTF-8.
///
/// An interrupted call counts as one that failed. Contracts see the count of faults.
#[derive(Drop)]
pub struct DiskFiles<R: std::rt::Files> {
    rt: R,
    file: Option<R::File>,
    faults: u64,
}

impl<R: std::rt::Files> Model for DiskFiles<R> {
    ghost use Rattle.std.specs.Prelude.{ℕ};

    ghost Value = { ℕ };

    ghost view = { λ d. d.faults };
}

impl<R: std::rt::Files> DiskFiles<R> {
    /// The files that a runtime reaches. None is begun yet, so that a read finds the end at once.
    pub fn new(rt: R) -> DiskFiles<R>
        ensures { result ≡ 0 }
    {
        DiskFiles {
            rt,
            file: None,
            faults: 0,
        }
    }

    /// How many calls failed.
    pub fn faults(&self) -> u64
        ensures { result ≡ self.now }
    {
        self.faults
    }
}

impl<R: std::rt::Files> Files for DiskFiles<R> {
    ghost use Rattle.std.specs.Prelude.{None, true};

    ghost bytes = { λ _ _. None };

    ghost rest = { λ _. None };

    ghost faults = { λ d. d };

    ghost begun = { λ _. None };

    ghost may_begin = { λ _ _. true };

    fn begin_file(&mut self, name: &[u8]) -> Result<(), Failed>
        ensures counted { CountsErrors self.old self.new result }
        ensures cause { HasCause self.old self.new result }
    {
        let opened = match std::str::from_utf8(name) {
            Ok(path) => fs::open(&self.rt, path).ok(),
            Err(_) => None,
        };
        match opened {
            Some(file) => {
                self.file = Some(file);
                Ok(())
            }
            None => {
                self.faults = self.faults.saturating_add(1);
                Err(Failed)
            }
        }
    }

    fn read(&mut self, buf: &mut [u8]) -> Result<usize, Failed>
        requires { 0 < length buf.old }
        ensures counted { CountsErrors self.old self.new result }
        ensures bound { ReadsAtMost result buf.new }
        ensures cause { HasCause self.old self.new result }
    {
        let Some(file) = &mut self.file else {
            return Ok(0);
        };
        match file.read(buf) {
            Ok(count) => Ok(count),
            Err(_) => {
                self.faults = self.faults.saturating_add(1);
                Err(Failed)
            }
        }
    }
}

/// A sink over a writer.
///
/// An interrupted call counts as one that failed, and so does one that takes no byte. Contracts see
/// the count of faults.
#[derive(Debug, Drop)]
pub struct StdSink<W> {
    writer: W,
    faults: u64,
}

impl<W> Model for StdSink<W> {
    ghost use Rattle.std.specs.Prelude.{ℕ};

    ghost Value = { ℕ };

    ghost view = { λ s. s.faults };
}

impl<W: Write> StdSink<W> {
    /// A sink to which nothing was written yet.
    pub fn new(writer: W) -> StdSink<W>
        ensures { result ≡ 0 }
    {
        StdSink { writer, faults: 0 }
    }

    /// How many calls failed.
    pub fn faults(&self) -> u64
        ensures { result ≡ self.now }
    {
        self.faults
    }
}

impl<W: Write> Sink for StdSink<W> {
    ghost use Rattle.std.specs.Prelude.{None};

    ghost written = { λ _. None };

    ghost faults = { λ s. s };

    fn write(&mut self, piece: &[u8]) -> Result<usize, Failed>
        requires { 0 < length piece.now }
        ensures counted { CountsErrors self.old self.new result }
        ensures some { IfOk result (λ count. (0 < count) × (count ≤ length piece.now)) }
        ensures cause { HasCause self.old self.new result }
    {
        match self.writer.write(piece) {
            Ok(count) if count > 0 => Ok(count),
            _ => {
                self.faults = self.faults.saturating_add(1);
                Err(Failed)
            }
        }
    }
}
