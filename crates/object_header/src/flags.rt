//! The flags of an object, one by one and as a set. A flag is one bit of the header word, and a set
//! has these bits, moved down by the 16 bits of the type id.

ghost use Rattle.std.specs.Prelude.{⊤, ◌≡◌, ◌^◌, [], ◌∷◌, codes};
ghost use Rattle.object_header.specs.Words.{bit_of};

use bitflags::{Flag as NamedBits, Flags, bitflag_items};

/// A flag of an object, with its bit in the header word. `Track` is TRACK_YOUNG_PTRS in PyPy, and
/// most others have their like there. The bits are this project's own.
#[derive(Clone, Copy, PartialEq, Eq, Debug)]
pub enum Flag {
    /// A write of a reference into the object has to be remembered.
    Track = 16,
    /// Marking visited or kept the object, and no sweep has passed it since.
    Visited = 17,
    /// A home outside the nursery is reserved for the object.
    HasShadow = 18,
    /// The object is pinned, and does not move.
    Pinned = 19,
    /// The object has a card table.
    HasCards = 20,
    /// Some card of the object is marked.
    CardsSet = 21,
    /// The block is free.
    Free = 22,
    /// The block is a home reserved for an object in the nursery.
    Shadow = 23,
    /// The first bit of the state in which a pass over finalizers has the object.
    Order1 = 24,
    /// The second bit of that state.
    Order2 = 25,
}

impl Flag {
    /// The header word in which this flag is set, and no other, and whose type id is 0.
    pub fn mask(self) -> u64
        ensures { result ≡ 2 ^ bit_of self }
    {
        1 << (self as u64)
    }
}

/// A set of the ten flags.
#[derive(Clone, Copy, PartialEq, Eq, Debug)]
pub struct FlagSet(u16);

bitflag_items! {
    impl FlagSet: u16 {
        const TRACK = 1;
        const VISITED = 2;
        const HAS_SHADOW = 4;
        const PINNED = 8;
        const HAS_CARDS = 16;
        const CARDS_SET = 32;
        const FREE = 64;
        const SHADOW = 128;
        const ORDER1 = 256;
        const ORDER2 = 512;
    }
}

impl Flags for FlagSet {
    type Bits = u16;

    ghost exact = { ⊤ };

    ghost table = { (codes "TRACK", 1) ∷ (codes "VISITED", 2) ∷ (codes "HAS_SHADOW", 4) ∷ (codes "PINNED", 8) ∷ (codes "HAS_CARDS", 16) ∷ (codes "CARDS_SET", 32) ∷ (codes "FREE", 64) ∷ (codes "SHADOW", 128) ∷ (codes "ORDER1", 256) ∷ (codes "ORDER2", 512) ∷ [] };

    ghost set_of = { λ set. set.0 };

    fn flags<'a>() -> &'a [NamedBits<FlagSet>] {
        FlagSet::FLAGS
    }

    fn bits(&self) -> u16 {
        self.0
    }

    fn from_bits_retain(bits: u16) -> FlagSet {
        FlagSet(bits)
    }
}
