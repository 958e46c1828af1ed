//! The object in a slot, looked at once: the refusals of a command and its work read what was seen.
ghost use Rattle.std.specs.Prelude.{◌≡◌, ◌≢◌, ◌+◌, ◌<◌, ◌≤◌, option_map};
ghost use Rattle.object_view.specs.Views.{HasObject};
ghost use Rattle.heap_parts.specs.Parts.{word_in, place_in};
ghost use Rattle.heap_parts.specs.Effects.{with_word_at};
ghost use Rattle.heap_parts.specs.Copies.{with_copied};
ghost use Rattle.heap_core.specs.Found.{kind_of, found_from, found_of, IsFound};

use heap_parts::Parts;
use object_model::Kind;
use object_view::{ObjView, int_at, move_refs, ref_at, set_int, set_ref, view};
use type_table::Shape;

/// What was seen of an object: its place, its shape, and where its parts lie. It serves until the heap changes.
#[derive(Clone, Copy)]
pub struct Found {
    pub place: u64,
    pub shape: Shape,
    pub view: ObjView,
}

/// The shape of what was found, with its numbers of items, if something was.
pub fn kind_found(found: Option<Found>) -> Option<Kind>
    ensures { result ≡ option_map kind_of found }
{
    match found {
        None => None,
        Some(seen) => Some(Kind {
            shape: seen.shape,
            ints: seen.view.int_count,
            refs: seen.view.ref_count,
        }),
    }
}

/// What is seen of the object in a slot, None where it is empty or not there.
pub(crate) fn find(parts: &Parts, root: u32) -> Option<Found>
    requires { place_in parts.now root ≢ 0 → HasObject parts.now.memory parts.now.setup.types (place_in parts.now root) }
    ensures { result ≡ found_of parts.now root }
{
    let place = parts.place(root);
    if place == 0 {
        return None;
    }
    Some(seen_at(parts, place))
}

/// What is seen of the object at a place.
fn seen_at(parts: &Parts, place: u64) -> Found
    requires { HasObject parts.now.memory parts.now.setup.types place }
    ensures { result ≡ found_from parts.now.setup.types (word_in parts.now) place }
{
    let view = view(&parts.space, &parts.types, place);
    let shape = parts.types.get(view.type_id).unwrap().shape;
    Found { place, shape, view }
}

/// Puts a whole number into an item of the object that was found.
pub(crate) fn write_int(parts: &mut Parts, found: Found, item: u64, value: u64)
    requires seen { IsFound parts.old.memory parts.old.setup.types found }
    requires item { item < found.view.int_count }
    ensures { parts.new ≡ with_word_at parts.old (found.view.int_start + item) value }
{
    // The places of a space are below 2^63.
    let _ordered = parts.space.arena_words();
    set_int(&mut parts.space, found.view, found.place, item, value);
}

/// A whole number of the object that was found.
pub(crate) fn read_int(parts: &Parts, found: Found, item: u64) -> u64
    requires seen { IsFound parts.now.memory parts.now.setup.types found }
    requires item { item < found.view.int_count }
    ensures { result ≡ word_in parts.now (found.view.int_start + item) }
{
    // The places of a space are below 2^63.
    let _ordered = parts.space.arena_words();
    int_at(&parts.space, found.view, found.place, item)
}

/// Puts the place of an object, or 0, into an item of the object that was found.
pub(crate) fn write_ref(parts: &mut Parts, found: Found, item: u64, to: u64)
    requires seen { IsFound parts.old.memory parts.old.setup.types found }
    requires item { item < found.view.ref_count }
    ensures { parts.new ≡ with_word_at parts.old (found.view.ref_start + item) to }
{
    // The places of a space are below 2^63.
    let _ordered = parts.space.arena_words();
    set_ref(&mut parts.space, found.view, found.place, item, to);
}

/// The place to which a reference of the object that was found leads, or 0.
pub(crate) fn read_ref(parts: &Parts, found: Found, item: u64) -> u64
    requires seen { IsFound parts.now.memory parts.now.setup.types found }
    requires item { item < found.view.ref_count }
    ensures { result ≡ word_in parts.now (found.view.ref_start + item) }
{
    // The places of a space are below 2^63.
    let _ordered = parts.space.arena_words();
    ref_at(&parts.space, found.view, found.place, item)
}

/// The place to which the target of the weak object that was found leads, or 0.
pub(crate) fn read_target(parts: &Parts, found: Found) -> u64
    requires seen { IsFound parts.now.memory parts.now.setup.types found }
    requires target { found.view.ref_start < found.place + found.view.words }
    ensures { result ≡ word_in parts.now found.view.ref_start }
{
    // The places of a space are below 2^63.
    let _ordered = parts.space.arena_words();
    ref_at(&parts.space, found.view, found.place, 0)
}

/// Copies so many references of an object that was found, from an item on, to items of another one, or of the same. All are
/// read as they were before.
pub(crate) fn copy_refs(
    parts: &mut Parts,
    to: Found,
    item: u64,
    from: Found,
    from_item: u64,
    count: u64,
)
    requires to { IsFound parts.old.memory parts.old.setup.types to }
    requires from { IsFound parts.old.memory parts.old.setup.types from }
    requires items { item + count ≤ to.view.ref_count }
    requires from_items { from_item + count ≤ from.view.ref_count }
    ensures { parts.new ≡ with_copied parts.old (to.view.ref_start + item) (from.view.ref_start + from_item) count }
{
    // The places of a space are below 2^63.
    let _ordered = parts.space.arena_words();
    move_refs(
        &mut parts.space,
        to.view,
        to.place,
        item,
        from.view,
        from.place,
        from_item,
        count,
    );
}
