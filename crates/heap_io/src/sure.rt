//! Files and a sink that never fail.
//!
//! The files are one vector of bytes, which every name has, and a place in it.
ghost use Rattle.std.specs.Prelude.{◌≡◌, ◌<◌, [], length, min};
ghost use Rattle.std.specs.Io.{ReadsAtMost};
ghost use Rattle.std.specs.Io.KnownBytes.{ReadConsumes};

use crate::copy::copy_front;
use crate::{Failed, Files, Sink};
use std::marker::Model;

/// Files that never fail. Each name has the same bytes.
#[derive(Debug, Drop)]
pub struct SureFiles {
    bytes: Vec<u8>,
    at: usize,
}

impl Model for SureFiles {
    ghost use Rattle.std.specs.Prelude.{◌≤◌, drop, vec_len};
    ghost use Rattle.heap_io.specs.Memory.{SureBytes};

    ghost Value = { SureBytes };

    ghost view = { λ f. record { bytes = f.bytes.items; rest = drop f.at f.bytes.items } };

    ghost invariant = { λ f. f.at ≤ vec_len f.bytes };
}

impl SureFiles {
    /// Files of which none is begun yet, so that nothing is left to be read.
    pub fn new(bytes: Vec<u8>) -> SureFiles
        ensures { result ≡ record { bytes = bytes.items; rest = [] } }
    {
        let at = bytes.len();
        SureFiles { bytes, at }
    }
}

impl Files for SureFiles {
    ghost use Rattle.std.specs.Prelude.{Some, None, true};

    ghost bytes = { λ f _. Some f.bytes };

    ghost rest = { λ f. Some f.rest };

    ghost faults = { λ _. 0 };

    ghost begun = { λ _. None };

    ghost may_begin = { λ _ _. true };

    /// Begins a file, whose bytes are those of every name.
    fn begin_file(&mut self, name: &[u8]) -> Result<(), Failed>
        ensures answer { result ≡ Ok tt }
        ensures begun { self.new ≡ record { bytes = self.old.bytes; rest = self.old.bytes } }
    {
        self.at = 0;
        Ok(())
    }

    /// Fills the buffer as far as the rest goes.
    fn read(&mut self, buf: &mut [u8]) -> Result<usize, Failed>
        requires { 0 < length buf.old }
        ensures full { result ≡ Ok (min (length self.old.rest) (length buf.old)) }
        ensures bound { ReadsAtMost result buf.new }
        ensures taken { ReadConsumes (Some self.old.rest) (Some self.new.rest) result buf.new }
        ensures bytes { self.new.bytes ≡ self.old.bytes }
    {
        let count = copy_front(&self.bytes[self.at..], buf);
        self.at += count;
        Ok(count)
    }
}

/// A sink that never fails. It keeps no bytes.
#[derive(Clone, Copy, Debug, PartialEq, Eq)]
pub struct SureSink;

impl Sink for SureSink {
    ghost use Rattle.std.specs.Prelude.{None};

    ghost written = { λ _. None };

    ghost faults = { λ _. 0 };

    /// Takes the piece whole.
    fn write(&mut self, piece: &[u8]) -> Result<usize, Failed>
        requires { 0 < length piece.now }
        ensures { result ≡ Ok (length piece.now) }
    {
        Ok(piece.len())
    }
}
