//! The words of a new object.

ghost use Rattle.std.specs.Prelude.{◌≡◌, IsTrue};
ghost use Rattle.type_table.specs.Words.{words_in};
ghost use Rattle.object_header.specs.Words.{IsHeader};
ghost use Rattle.heap_space.specs.Places.{lies_in_one, with_run};
ghost use Rattle.object_view.specs.Births.{born_words};

use heap_space::Space;
use type_table::{Shape, TypeInfo, words};

/// What a new object is born with, beside its shape.
#[derive(Clone, Copy, PartialEq, Eq, Debug)]
pub struct Birth {
    /// The header word: the id of the type, and the flags that are set from the start.
    pub header: u64,
    /// The number of the birth.
    pub number: u64,
    /// The number of an array's items. It says nothing of the other shapes.
    pub len: u64,
    /// The place of a weak object's target. It is 0 for the other shapes, and for a weak object without one.
    pub target: u64,
}

/// Writes the words of a new object from the place `a` on: its header, the number of its birth, the length of an array or
/// the target of a weak object, and 0 in every other word. Every other word stays.
pub fn init(space: &mut Space, a: u64, info: TypeInfo, birth: Birth)
    requires room { IsTrue (lies_in_one space.old.blocks a (words_in info.shape birth.len)) }
    requires header { IsHeader birth.header }
    requires target { (info.shape ≡ Shape.Weak → ⊥) → birth.target ≡ 0 }
    ensures { space.new ≡ record space.old { blocks = with_run space.old.blocks a (born_words info.shape birth.header birth.number birth.len birth.target) } }
{
    // The places of a space are below 2^63.
    let _ordered = space.arena_words();
    space.write(a, birth.header);
    space.write(a + 1, birth.number);
    match info.shape {
        Shape::Fixed { ints, refs } => space.fill_zero(a + 2, u64::from(ints) + u64::from(refs)),
        Shape::IntArray | Shape::RefArray => {
            space.write(a + 2, birth.len);
            space.fill_zero(a + 3, birth.len);
        }
        Shape::Weak => space.write(a + 2, birth.target),
    }
}
