//! The outside world as the program sees it: files that are read and sinks that are written.
//!
//! Code that is generic over [`Files`] and [`Sink`] is proved once, over files of the disk and over
//! files in memory alike. What a call does to the outside is said by ghost members, which tell the
//! bytes only where they can be known.
#![tactic(auto)]

mod calls;
mod copy;
mod disk;
mod memory;
mod sure;

ghost use Rattle.std.specs.Prelude.{◌≡◌, ◌<◌, ◌≤◌, ℕ, Bool, List, Option, IfOk, IsTrue, OnOk, length};
ghost use Rattle.std.specs.Io.{ReadsAtMost};
ghost use Rattle.std.specs.Io.KnownBytes.{ReadConsumes, WriteAppends};
ghost use Rattle.heap_io.specs.Causes.{HasCause, CountsBegun};

pub use disk::{DiskFiles, StdSink};
pub use memory::{MemFiles, MemSink, NamedFile};
use std::error::Error;
use std::fmt;
pub use sure::{SureFiles, SureSink};

/// A call failed, for a cause outside the program.
#[derive(Clone, Copy, Debug, PartialEq, Eq)]
pub struct Failed;

impl fmt::Display for Failed {
    fn fmt<W: fmt::Write>(&self, f: &mut fmt::Formatter<W>) -> fmt::Result {
        f.write_str("a call to the outside failed")
    }
}

impl Error for Failed {}

/// Named files, of which one is read at a time.
pub trait Files {
    /// The bytes of each name, where they are told. No call changes them.
    ghost bytes: { Self → List ℕ → Option (List ℕ) };

    /// What is still to be read of the file that was begun, where it is told.
    ghost rest: { Self → Option (List ℕ) };

    /// How often a call has failed. The count never falls, and stands still at the greatest `u64`.
    ghost faults: { Self → ℕ };

    /// How many files were begun, where that is told. The count never falls, and stands still at the greatest `u64`.
    ghost begun: { Self → Option ℕ };

    /// Whether a name may be begun. No call changes it.
    ghost may_begin: { Self → List ℕ → Bool };

    /// Begins the file of a name: its bytes are then the rest.
    ///
    /// It fails only where the count of faults rises. No byte of the name is then taken, the file does not count as begun,
    /// and nothing is said of the rest.
    fn begin_file(&mut self, name: &[u8]) -> Result<(), Failed>
        requires { IsTrue (may_begin self.old name.now) }
        ensures begun { OnOk result (rest self.new ≡ bytes self.old name.now) }
        ensures counted { CountsBegun (begun self.old) (begun self.new) result }
        ensures bytes { bytes self.new ≡ bytes self.old }
        ensures may_begin { may_begin self.new ≡ may_begin self.old }
        ensures cause { HasCause (faults self.old) (faults self.new) result };

    /// Reads bytes from the front of the rest into the front of the buffer, and says how many.
    ///
    /// It gives 0 at the end of the input alone. It fails only where the count of faults rises, and
    /// the rest then stays as it was.
    fn read(&mut self, buf: &mut [u8]) -> Result<usize, Failed>
        requires { 0 < length buf.old }
        ensures bound { ReadsAtMost result buf.new }
        ensures taken { ReadConsumes (rest self.old) (rest self.new) result buf.new }
        ensures counted { begun self.new ≡ begun self.old }
        ensures bytes { bytes self.new ≡ bytes self.old }
        ensures may_begin { may_begin self.new ≡ may_begin self.old }
        ensures cause { HasCause (faults self.old) (faults self.new) result };
}

/// What takes the bytes that are written.
pub trait Sink {
    /// The bytes written so far, where they are told.
    ghost written: { Self → Option (List ℕ) };

    /// How often a call has failed. The count never falls, and stands still at the greatest `u64`.
    ghost faults: { Self → ℕ };

    /// Takes one byte or more from the front of the piece, and says how many.
    ///
    /// It fails only where the count of faults rises, and takes nothing then.
    fn write(&mut self, piece: &[u8]) -> Result<usize, Failed>
        requires { 0 < length piece.now }
        ensures some { IfOk result (λ count. (0 < count) × (count ≤ length piece.now)) }
        ensures appended { WriteAppends (written self.old) (written self.new) result piece.now }
        ensures cause { HasCause (faults self.old) (faults self.new) result };
}
