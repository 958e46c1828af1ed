//! Where the parts of an object lie, and its whole numbers and references. Word 0 of an object is its header and word 1
//! its birth. A fixed object goes on with its whole numbers and then its references, an array with its length and then its
//! items, a weak object with its target.

ghost use Rattle.std.specs.Prelude.{◌≡◌, ◌+◌, ◌^◌, ◌<◌, IsTrue, IsSome};
ghost use Rattle.type_table.specs.Table.{value_at};
ghost use Rattle.object_model.specs.Layout.{layout_of};
ghost use Rattle.object_model.specs.ObjectWords.{info_or_weak, words_at};
ghost use Rattle.heap_space.specs.Places.{word_at, with_word, lies_in_one};
ghost use Rattle.object_view.specs.Views.{HasObject, HasView, view_of, view_at};

use heap_space::Space;
use type_table::{Shape, TypeInfo, TypeTable};

/// Where the parts of an object lie. All starts are places, and all counts are words.
#[derive(Clone, Copy, PartialEq, Eq, Debug)]
pub struct ObjView {
    pub type_id: u16,
    pub birth: u64,
    /// All words of the object, its header and its birth too.
    pub words: u64,
    pub int_start: u64,
    pub int_count: u64,
    /// The place of the first reference, or of a weak object's target.
    pub ref_start: u64,
    /// The number of references. A target is none.
    pub ref_count: u64,
}

/// Where the parts of the whole object at the place `a` lie, whose type is in the table. (The layout is this project's own.)
pub fn view(space: &Space, types: &TypeTable, a: u64) -> ObjView
    requires { HasObject space.now types.now a }
    ensures value { result ≡ view_at types.now (word_at space.now.blocks) a }
    ensures whole { HasView space.now result a }
{
    // The places of a space are below 2^63.
    let _ordered = space.arena_words();
    let type_id = object_header::type_id(space.read(a));
    let birth = space.read(a + 1);
    let info = info_of(types, type_id);
    let len = length_of(space, info.shape, a);
    parts(info.shape, a, len, type_id, birth)
}

/// The words of the whole object at the place `a`, whose type is in the table: its header and its birth too.
pub fn words_of(space: &Space, types: &TypeTable, a: u64) -> u64
    requires { HasObject space.now types.now a }
    ensures { result ≡ words_at types.now (word_at space.now.blocks) a }
{
    // The places of a space are below 2^63.
    let _ordered = space.arena_words();
    let type_id = object_header::type_id(space.read(a));
    let info = info_of(types, type_id);
    let len = length_of(space, info.shape, a);
    shape_words(info.shape, a, len)
}

// The words of an object of the shape at the place a, of so many items if it is an array.
fn shape_words(shape: Shape, a: u64, len: u64) -> u64
    requires { a + (layout_of shape a len).words < 2 ^ 64 }
    ensures { result ≡ (layout_of shape a len).words }
{
    match shape {
        Shape::Fixed { ints, refs } => 2 + u64::from(ints) + u64::from(refs),
        Shape::IntArray | Shape::RefArray => 3 + len,
        Shape::Weak => 3,
    }
}

// The descriptor of a type of the table.
fn info_of(types: &TypeTable, type_id: u16) -> TypeInfo
    requires { IsSome (value_at types.now type_id) }
    ensures { result ≡ info_or_weak (value_at types.now type_id) }
{
    types.get(type_id).unwrap()
}

// The length of the array at the place a, and 0 where the shape is not an array's.
fn length_of(space: &Space, shape: Shape, a: u64) -> u64
    requires { IsTrue (lies_in_one space.now.blocks a (layout_of shape a (word_at space.now.blocks (a + 2))).words) }
    ensures { layout_of shape a result ≡ layout_of shape a (word_at space.now.blocks (a + 2)) }
{
    // The places of a space are below 2^63.
    let _ordered = space.arena_words();
    match shape {
        Shape::IntArray | Shape::RefArray => space.read(a + 2),
        Shape::Fixed { .. } | Shape::Weak => 0,
    }
}

// The view of an object of the shape at the place a, of so many items if it is an array.
fn parts(shape: Shape, a: u64, len: u64, type_id: u16, birth: u64) -> ObjView
    requires { a + (layout_of shape a len).words < 2 ^ 64 }
    ensures { result ≡ view_of type_id birth (layout_of shape a len) }
{
    let (words, int_start, int_count, ref_count) = match shape {
        Shape::Fixed { ints, refs } => (
            2 + u64::from(ints) + u64::from(refs),
            a + 2,
            u64::from(ints),
            u64::from(refs),
        ),
        Shape::IntArray => (3 + len, a + 3, len, 0),
        Shape::RefArray => (3 + len, a + 3, 0, len),
        Shape::Weak => (3, a + 2, 0, 0),
    };
    ObjView {
        type_id,
        birth,
        words,
        int_start,
        int_count,
        ref_start: int_start + int_count,
        ref_count,
    }
}

/// Reference `i` of the object at the place `a`, whose view is `v`: the place of another object, or 0. A weak object has
/// its target there, with `i` 0.
pub fn ref_at(space: &Space, v: ObjView, a: u64, i: u64) -> u64
    requires whole { HasView space.now v a }
    requires item { v.ref_start + i < a + v.words }
    ensures { result ≡ word_at space.now.blocks (v.ref_start + i) }
{
    space.read(v.ref_start + i)
}

/// Writes reference `i` of the object at the place `a`, whose view is `v`, or a weak object's target with `i` 0. Every
/// other word stays.
pub fn set_ref(space: &mut Space, v: ObjView, a: u64, i: u64, to: u64)
    requires whole { HasView space.old v a }
    requires item { v.ref_start + i < a + v.words }
    ensures { space.new ≡ record space.old { blocks = with_word space.old.blocks (v.ref_start + i) to } }
{
    space.write(v.ref_start + i, to);
}

/// Whole number `i` of the object at the place `a`, whose view is `v`.
pub fn int_at(space: &Space, v: ObjView, a: u64, i: u64) -> u64
    requires whole { HasView space.now v a }
    requires item { i < v.int_count }
    ensures { result ≡ word_at space.now.blocks (v.int_start + i) }
{
    space.read(v.int_start + i)
}

/// Writes whole number `i` of the object at the place `a`, whose view is `v`. Every other word stays.
pub fn set_int(space: &mut Space, v: ObjView, a: u64, i: u64, to: u64)
    requires whole { HasView space.old v a }
    requires item { i < v.int_count }
    ensures { space.new ≡ record space.old { blocks = with_word space.old.blocks (v.int_start + i) to } }
{
    space.write(v.int_start + i, to);
}
