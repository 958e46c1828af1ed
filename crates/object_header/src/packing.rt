//! A header as a word of memory, and a word of memory as a header.

ghost use Rattle.std.specs.Prelude.{◌≡◌, ◌↔◌, IsSome, IfSome, Some};
ghost use Rattle.object_header.specs.declared.Header.{Header};
ghost use Rattle.object_header.specs.Packing.{header_word};
ghost use Rattle.object_header.specs.Words.{IsHeader};

use crate::{FlagSet, Header};
use bitflags::Flags;

/// The word of a header.
pub fn pack(h: Header) -> u64
    ensures { result ≡ header_word h }
{
    h.type_id as u64 + ((h.flags.bits() as u64) << 16)
}

/// The header of which `word` is the word, and `None` exactly where it is that of none: where a bit
/// above the ten flags is set.
pub fn unpack(word: u64) -> Option<Header>
    ensures packed { IfSome result (λ h. header_word h ≡ word) }
    ensures every { (h : Header) → header_word h ≡ word → result ≡ Some h }
    ensures header { IsSome result ↔ IsHeader word }
{
    if word >> 26 != 0 {
        return None;
    }
    Some(Header {
        type_id: (word & 0xffff) as u16,
        flags: FlagSet::from_bits_retain((word >> 16) as u16),
    })
}
