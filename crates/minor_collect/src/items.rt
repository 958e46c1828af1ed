//! The references of objects outside the nursery.
ghost use Rattle.std.specs.Prelude.{◌≡◌, ◌+◌, ◌<◌, ◌≤◌, ℕ, [], IsTrue, OnOk};
ghost use Rattle.object_model.specs.Sets.{is_in};
ghost use Rattle.object_view.specs.Views.{HasObject, HasView, view_at};
ghost use Rattle.heap_parts.specs.Parts.{word_in};
ghost use Rattle.heap_parts.specs.Places.{old_places};
ghost use Rattle.heap_parts.specs.Effects.{with_word_at};
ghost use Rattle.minor_collect.specs.Calls.{Stage, Spot, Standing, MayLead, CanFollowItem, FollowedItem, CanFollowItems, FollowedItems, CanOpen, ref_count_at, AreTodo, CanDrain, Drained};

use crate::moves::{follow, hold_for};
use crate::work::Moving;
use heap_parts::Parts;
use object_view::{ObjView, ref_at, set_ref, view};
use std::alloc::AllocError;

/// Follows the references of the object at a place from one on and before another, as far as it has such.
pub(crate) fn follow_items(
    parts: &mut Parts,
    moving: &mut Moving,
    p: u64,
    from: u64,
    to: u64,
) -> Result<(), AllocError>
    requires { CanFollowItems parts.old moving.old p from to }
    ensures { (stage : Stage) (spot : Spot) → Standing stage parts.old moving.old spot → IsTrue (is_in p (old_places spot.placing.places)) → ((i : ℕ) → from ≤ i → i < to → MayLead stage (spot.placing.name p) i)
        → OnOk result (FollowedItems stage parts.old parts.new moving.old moving.new spot p from to) }
{
    let v = view_of(parts, p);
    follow_seen(parts, moving, v, p, from, to)
}

/// The same of an object whose view is `v`.
fn follow_seen(
    parts: &mut Parts,
    moving: &mut Moving,
    v: ObjView,
    p: u64,
    from: u64,
    to: u64,
) -> Result<(), AllocError>
    requires follow { CanFollowItems parts.old moving.old p from to }
    requires value { v ≡ view_at parts.old.setup.types (word_in parts.old) p }
    requires whole { HasView parts.old.memory v p }
    ensures { (stage : Stage) (spot : Spot) → Standing stage parts.old moving.old spot → IsTrue (is_in p (old_places spot.placing.places)) → ((i : ℕ) → from ≤ i → i < to → MayLead stage (spot.placing.name p) i)
        → OnOk result (FollowedItems stage parts.old parts.new moving.old moving.new spot p from to) }
{
    for i in from..to.min(v.ref_count) {
        follow_item(parts, moving, v, p, i)?;
    }
    Ok(())
}

/// Where the parts of the object at a place lie.
pub(crate) fn view_of(parts: &Parts, p: u64) -> ObjView
    requires { HasObject parts.now.memory parts.now.setup.types p }
    ensures value { result ≡ view_at parts.now.setup.types (word_in parts.now) p }
    ensures whole { HasView parts.now.memory result p }
{
    view(&parts.space, &parts.types, p)
}

/// Follows one reference of the object at a place, whose view is `v`. Where it leads to a pinned object, the object is held
/// for the next minor collection. The error is out of memory.
fn follow_item(
    parts: &mut Parts,
    moving: &mut Moving,
    v: ObjView,
    p: u64,
    i: u64,
) -> Result<(), AllocError>
    requires follow { CanFollowItem parts.old moving.old v p i }
    requires view { HasView parts.old.memory v p }
    ensures { (stage : Stage) (spot : Spot) → Standing stage parts.old moving.old spot → IsTrue (is_in p (old_places spot.placing.places)) → v ≡ view_at parts.old.setup.types (word_in parts.old) p
        → i < v.ref_count → MayLead stage (spot.placing.name p) i → OnOk result (FollowedItem stage parts.old parts.new moving.old moving.new spot p i) }
{
    let x = item(parts, v, p, i);
    let y = follow(parts, moving, x)?;
    hold_for(parts, p, y)?;
    put_item(parts, v, p, i, y);
    Ok(())
}

/// Reference `i` of the object at a place, whose view is `v`.
pub(crate) fn item(parts: &Parts, v: ObjView, p: u64, i: u64) -> u64
    requires whole { HasView parts.now.memory v p }
    requires item { v.ref_start + i < p + v.words }
    ensures { result ≡ word_in parts.now (v.ref_start + i) }
{
    ref_at(&parts.space, v, p, i)
}

/// Writes reference `i` of the object at a place, whose view is `v`.
fn put_item(parts: &mut Parts, v: ObjView, p: u64, i: u64, y: u64)
    requires whole { HasView parts.old.memory v p }
    requires item { v.ref_start + i < p + v.words }
    ensures { parts.new ≡ with_word_at parts.old (v.ref_start + i) y }
{
    set_ref(&mut parts.space, v, p, i, y);
}

/// Follows the references of an object that moved.
fn open_object(parts: &mut Parts, moving: &mut Moving, p: u64) -> Result<(), AllocError>
    requires { CanOpen parts.old moving.old p }
    ensures { (stage : Stage) (spot : Spot) → Standing stage parts.old moving.old spot → IsTrue (is_in p spot.todo) → OnOk result (FollowedItems stage parts.old parts.new moving.old moving.new spot p 0 (ref_count_at stage parts.old p)) }
{
    let v = view_of(parts, p);
    follow_seen(parts, moving, v, p, 0, v.ref_count)
}

/// Follows the references of all objects that moved, and of those that move by that.
pub(crate) fn drain(parts: &mut Parts, moving: &mut Moving) -> Result<(), AllocError>
    requires { CanDrain parts.old moving.old }
    ensures drained { (stage : Stage) (spot : Spot) → Standing stage parts.old moving.old spot → AreTodo spot moving.old → OnOk result (Drained stage parts.old parts.new moving.new spot) }
    ensures emptied { OnOk result (moving.new.todo.items ≡ []) }
{
    while let Some(p) = moving.todo.pop_front() {
        open_object(parts, moving, p)?;
    }
    Ok(())
}
