//! Marking by a flag: all that an object leads to over objects outside the nursery that marking did not
//! visit.

ghost use Rattle.std.specs.Prelude.{◌≡◌, ◌≢◌, ◌<◌, ◌++◌, ◌∷◌, [], IsTrue, OnOk};
ghost use Rattle.heap_space.specs.Places.{has, word_at};
ghost use Rattle.finalizer_order.specs.Unvisited.{is_unvisited, AreWhole};
ghost use Rattle.finalizer_order.specs.Marking.{is_unmarked, met, MeetsRefs, MarksFrom, marked_at};

use heap_space::Space;
use nursery_gaps::Nursery;
use object_header::{Flag, is_set, set};
use object_view::{ref_at, view};
use std::alloc::AllocError;
use type_table::TypeTable;

/// Whether an object lies at the place outside the nursery which has neither Visited nor the flag.
pub(crate) fn is_unmarked(space: &Space, nursery: &Nursery, flag: Flag, place: u64) -> bool
    requires { nursery.now.words < place → IsTrue (has space.now.blocks place) }
    ensures { result ≡ is_unmarked flag nursery.now.words (word_at space.now.blocks) place }
{
    if place == 0 || nursery.holds(place) {
        return false;
    }
    let word = space.read(place);
    !is_set(word, Flag::Visited) && !is_set(word, flag)
}

// Marks the object at the place where it is unmarked, and lists it then.
fn meet(
    space: &mut Space,
    nursery: &Nursery,
    flag: Flag,
    place: u64,
    marked: &mut Vec<u64>,
) -> Result<(), AllocError>
    requires { nursery.now.words < place → IsTrue (has space.old.blocks place) }
    ensures listed { OnOk result (marked.new.items
        ≡ marked.old.items ++ met flag nursery.now.words (word_at space.old.blocks) place) }
    ensures marked { OnOk result (space.new ≡ record space.old {
      blocks = marked_at flag (met flag nursery.now.words (word_at space.old.blocks) place) space.old.blocks;
    }) }
{
    if is_unmarked(space, nursery, flag, place) {
        marked.push(place)?;
        let word = space.read(place);
        space.write(place, set(word, flag));
    }
    Ok(())
}

// Marks what the object at the place refers to, and lists what it marked.
fn meet_refs(
    space: &mut Space,
    types: &TypeTable,
    nursery: &Nursery,
    flag: Flag,
    place: u64,
    marked: &mut Vec<u64>,
) -> Result<(), AllocError>
    requires whole { AreWhole space.old types.now nursery.now.words (place ∷ []) }
    requires outside { nursery.now.words < place }
    requires flag { flag ≢ Flag.Visited }
    ensures { OnOk result
        (MeetsRefs flag types.now nursery.now.words space.old space.new place marked.old.items marked.new.items) }
{
    let object = view(space, types, place);
    for i in 0..object.ref_count {
        let referent = ref_at(space, object, place, i);
        meet(space, nursery, flag, referent, marked)?;
    }
    Ok(())
}

/// Marks the object at the place and all that it leads to, as far as they are unmarked. Lists what it
/// marked, each object before those that were found by it.
pub(crate) fn mark_from(
    space: &mut Space,
    types: &TypeTable,
    nursery: &Nursery,
    flag: Flag,
    place: u64,
    marked: &mut Vec<u64>,
) -> Result<(), AllocError>
    requires whole { AreWhole space.old types.now nursery.now.words (place ∷ []) }
    requires flag { flag ≢ Flag.Visited }
    ensures { OnOk result
        (MarksFrom flag types.now nursery.now.words space.old space.new place marked.old.items marked.new.items) }
{
    let mut next = marked.len();
    meet(space, nursery, flag, place, marked)?;
    while next < marked.len() {
        meet_refs(space, types, nursery, flag, marked[next], marked)?;
        next += 1;
    }
    Ok(())
}
