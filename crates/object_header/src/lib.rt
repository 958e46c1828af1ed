//! The first word of an object in the heap: its type, and the flags of the collector. Bits 0 to 15
//! are the type id, bits 16 to 25 the ten flags, and all other bits are 0.
#![tactic(auto)]

ghost use Rattle.std.specs.Prelude.{◌<◌, ◌^◌};

mod flags;
mod packing;
mod words;

pub use flags::{Flag, FlagSet};
pub use packing::{pack, unpack};
pub use words::{clear, is_set, set, survives_sweep, type_id};

/// What the first word of an object says. Every type id with every set of the ten flags is a
/// header.
#[derive(Clone, Copy, PartialEq, Eq, Debug)]
pub struct Header {
    /// The type of the object, an id of the type table. Free blocks and reserved homes have 0.
    pub type_id: u16,
    /// The flags that are set.
    pub flags: FlagSet,
    ghost in_range: { type_id < 2 ^ 16 },
    ghost known: { flags.0 < 2 ^ 10 },
}
