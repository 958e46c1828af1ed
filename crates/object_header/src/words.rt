//! Flags read and changed in a header word as it lies in memory. A flag that is set or cleared
//! leaves the type and every other flag.

ghost use Rattle.std.specs.Prelude.{◌≡◌};
ghost use Rattle.object_header.specs.Words.{has_flag, with_flag, without_flag, type_of};
ghost use Rattle.object_header.specs.Words.{survives_sweep};

use crate::Flag;

/// Whether the flag is set in the header word.
pub fn is_set(word: u64, flag: Flag) -> bool
    ensures { result ≡ has_flag word flag }
{
    word & flag.mask() != 0
}

/// Whether a sweep keeps the block that begins with the header word: its object was visited, or it
/// is a reserved home.
pub fn survives_sweep(word: u64) -> bool
    ensures { result ≡ survives_sweep word }
{
    is_set(word, Flag::Visited) || is_set(word, Flag::Shadow)
}

/// The header word with the flag set.
pub fn set(word: u64, flag: Flag) -> u64
    ensures { result ≡ with_flag word flag }
{
    word | flag.mask()
}

/// The header word with the flag not set.
pub fn clear(word: u64, flag: Flag) -> u64
    ensures { result ≡ without_flag word flag }
{
    word & !flag.mask()
}

/// The type id in the header word.
pub fn type_id(word: u64) -> u16
    ensures { result ≡ type_of word }
{
    (word & 0xffff) as u16
}
