//! The lists that lead to objects: slots, registered objects, and what C structures keep.

ghost use Rattle.std.specs.Prelude.{◌≡◌, ◌++◌, ◌<◌, ◌≤◌, [], length, IsTrue, OnOk};
ghost use Rattle.object_model.specs.Sets.{is_in};
ghost use Rattle.minor_collect.specs.Calls.{Stage, Spot, Standing, CanFollowLists, FollowedSlots, CanFollowSlot, FollowedSlot, MayFollow, CanFollowPlaces, FollowedPlaces, FollowedForced};
ghost use Rattle.minor_collect.specs.Registered.{CanFollowEntry, FollowedEntry, FollowedEntries, FollowedRoots, MovesEntry, registered_places};
ghost use Rattle.store_model.specs.Structs.{forced_objects};

use crate::moves::follow;
use crate::work::Moving;
use heap_parts::Parts;
use std::alloc::AllocError;

/// Follows what the slots hold, the registered objects, and what P links keep. The lists are scratch, and empty before. The error
/// is out of memory.
pub(crate) fn follow_roots(
    parts: &mut Parts,
    moving: &mut Moving,
    registered: &mut Vec<u64>,
    forced: &mut Vec<u64>,
) -> Result<(), AllocError>
    requires follow { CanFollowLists parts.old moving.old }
    requires registered { registered.old.items ≡ [] }
    requires forced { forced.old.items ≡ [] }
    ensures { (stage : Stage) (spot : Spot) → Standing stage parts.old moving.old spot → OnOk result (FollowedRoots stage parts.old parts.new moving.old moving.new spot) }
{
    follow_slots(parts, moving)?;
    follow_registered(parts, moving, registered)?;
    follow_forced(parts, moving, forced)
}

/// Follows what the slots hold. The error is out of memory.
fn follow_slots(parts: &mut Parts, moving: &mut Moving) -> Result<(), AllocError>
    requires { CanFollowLists parts.old moving.old }
    ensures { (stage : Stage) (spot : Spot) → Standing stage parts.old moving.old spot → OnOk result (FollowedSlots stage parts.old parts.new moving.old moving.new spot (length parts.old.slots)) }
{
    for root in 0..slot_count(parts) {
        follow_slot(parts, moving, root)?;
    }
    Ok(())
}

/// The number of slots.
fn slot_count(parts: &Parts) -> u32
    requires { length parts.now.slots ≤ 65536 }
    ensures { result ≡ length parts.now.slots }
{
    parts.slots.len() as u32
}

/// Follows what a slot holds.
fn follow_slot(parts: &mut Parts, moving: &mut Moving, root: u32) -> Result<(), AllocError>
    requires { CanFollowSlot parts.old moving.old root }
    ensures { (stage : Stage) (spot : Spot) → Standing stage parts.old moving.old spot → root < length parts.old.slots → OnOk result (FollowedSlot stage parts.old parts.new moving.old moving.new spot root) }
{
    let x = parts.place(root);
    let y = follow(parts, moving, x)?;
    parts.set_slot(root, y);
    Ok(())
}

/// Follows the registered objects, which keep the places where they are then. The list is scratch. The error is out of memory.
fn follow_registered(
    parts: &mut Parts,
    moving: &mut Moving,
    registered: &mut Vec<u64>,
) -> Result<(), AllocError>
    requires follow { CanFollowLists parts.old moving.old }
    requires empty { registered.old.items ≡ [] }
    ensures { (stage : Stage) (spot : Spot) → Standing stage parts.old moving.old spot → OnOk result (FollowedEntries stage parts.old parts.new moving.old moving.new spot (length parts.old.registered)) }
{
    list_registered(parts, registered)?;
    follow_entries(parts, moving, registered)
}

/// Appends the places of the registered objects, in order of registration. The error is out of memory.
fn list_registered(parts: &Parts, places: &mut Vec<u64>) -> Result<(), AllocError>
    ensures { OnOk result (places.new.items ≡ places.old.items ++ registered_places parts.now) }
{
    parts.finals.registered_places(places)
}

/// Follows the registered objects, whose places these are. The error is out of memory.
fn follow_entries(parts: &mut Parts, moving: &mut Moving, places: &[u64]) -> Result<(), AllocError>
    requires follow { CanFollowLists parts.old moving.old }
    requires places { places.now ≡ registered_places parts.old }
    ensures { (stage : Stage) (spot : Spot) → Standing stage parts.old moving.old spot → OnOk result (FollowedEntries stage parts.old parts.new moving.old moving.new spot (length parts.old.registered)) }
{
    for p in places {
        follow_entry(parts, moving, *p)?;
    }
    Ok(())
}

/// Follows the registered object at a place. The error is out of memory.
fn follow_entry(parts: &mut Parts, moving: &mut Moving, p: u64) -> Result<(), AllocError>
    requires { CanFollowEntry parts.old moving.old p }
    ensures { (stage : Stage) (spot : Spot) → Standing stage parts.old moving.old spot → IsTrue (is_in p (registered_places parts.old)) → OnOk result (FollowedEntry stage parts.old parts.new moving.old moving.new spot p) }
{
    let y = follow(parts, moving, p)?;
    move_entry(parts, p, y);
    Ok(())
}

/// Notes that the registered object at a place stands at another now.
fn move_entry(parts: &mut Parts, from: u64, to: u64)
    requires { IsTrue (is_in from (registered_places parts.old)) }
    ensures { MovesEntry parts.old parts.new from to }
{
    parts.finals.moved(from, to);
}

/// Follows the objects that P links keep. The list is scratch. The error is out of memory.
fn follow_forced(
    parts: &mut Parts,
    moving: &mut Moving,
    forced: &mut Vec<u64>,
) -> Result<(), AllocError>
    requires follow { CanFollowLists parts.old moving.old }
    requires empty { forced.old.items ≡ [] }
    ensures { (stage : Stage) (spot : Spot) → Standing stage parts.old moving.old spot → OnOk result (FollowedForced stage parts.old parts.new moving.old moving.new spot) }
{
    list_forced(parts, forced)?;
    follow_places(parts, moving, forced)
}

/// Appends the places of the objects that P links keep. The error is out of memory.
fn list_forced(parts: &Parts, forced: &mut Vec<u64>) -> Result<(), AllocError>
    ensures { OnOk result (forced.new.items ≡ forced.old.items ++ forced_objects parts.now.links.structs) }
{
    parts.links.forced(forced)
}

/// Follows the objects at these places. The error is out of memory.
fn follow_places(parts: &mut Parts, moving: &mut Moving, places: &[u64]) -> Result<(), AllocError>
    requires { CanFollowPlaces parts.old moving.old places.now }
    ensures { (stage : Stage) (spot : Spot) → Standing stage parts.old moving.old spot → MayFollow stage spot places.now → OnOk result (FollowedPlaces stage parts.old parts.new moving.old moving.new spot places.now) }
{
    for p in places {
        follow(parts, moving, *p)?;
    }
    Ok(())
}
