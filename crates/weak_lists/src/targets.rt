//! The targets of weak objects, each read and written once.

ghost use Rattle.std.specs.Prelude.{◌≡◌, ℕ, ◌+◌, ◌⊎◌, ◌++◌, [], ◌∷◌, List, IsTrue, OnOk, map, filter, if◌then◌else◌};
ghost use Rattle.type_table.specs.declared.info.Shape.TheVariants.{Weak};
ghost use Rattle.heap_space.specs.Places.{has, word_at};
ghost use Rattle.object_model.specs.ObjectWords.{info_at};
ghost use Rattle.object_view.specs.Views.{HasObject};
ghost use Rattle.weak_lists.specs.Targets.{is_outside as lies_outside, is_gone, followed, is_unvisited as was_unvisited, kept_target, target_place, target_at, ChangesTargets, SetsWord};
ghost use Rattle.weak_lists.specs.Conditions.{CanClear, CanSettle, CanRead};
ghost use Rattle.weak_lists.specs.Cleared.{StartsWith, births_losing};

use crate::places::{is_outside, place_now, survives};
use heap_space::Space;
use nursery_gaps::Nursery;
use object_header::{Flag, is_set};
use object_view::{ref_at, set_ref, view};
use std::alloc::AllocError;
use type_table::TypeTable;

/// Lets the targets of these weak objects follow to where they are now, clears those that vanished,
/// and appends the births of the objects that lose them.
pub(crate) fn follow_targets(
    places: &[u64],
    space: &mut Space,
    types: &TypeTable,
    nursery: &Nursery,
    cleared: &mut Vec<u64>,
) -> Result<(), AllocError>
    requires { (all : List ℕ) × CanSettle types.now space.old places.now all }
    ensures targets { OnOk result (ChangesTargets types.now
        (followed nursery.now.words (word_at space.old.blocks)) space.old space.new places.now) }
    ensures told { OnOk result (cleared.new.items
        ≡ cleared.old.items ++ births_losing types.now (word_at space.old.blocks)
        (is_gone nursery.now.words (word_at space.old.blocks)) places.now) }
    ensures front { StartsWith cleared.new.items cleared.old.items }
{
    for a in places {
        follow_target(space, types, nursery, *a, cleared)?;
    }
    Ok(())
}

// Lets the target of one weak object follow, or clears it and appends the object's birth.
fn follow_target(
    space: &mut Space,
    types: &TypeTable,
    nursery: &Nursery,
    a: u64,
    cleared: &mut Vec<u64>,
) -> Result<(), AllocError>
    requires object { HasObject space.old types.now a }
    requires weak { (info_at types.now (word_at space.old.blocks) a).shape ≡ Weak }
    requires target { (target_at types.now (word_at space.old.blocks) a ≡ 0)
        ⊎ CanRead space.old (target_at types.now (word_at space.old.blocks) a) }
    ensures target { OnOk result (SetsWord (target_place types.now (word_at space.old.blocks) a)
        (followed nursery.now.words (word_at space.old.blocks)
        (target_at types.now (word_at space.old.blocks) a))
        space.old space.new) }
    ensures told { OnOk result (cleared.new.items ≡ cleared.old.items
        ++ (if is_gone nursery.now.words (word_at space.old.blocks)
        (target_at types.now (word_at space.old.blocks) a)
        then word_at space.old.blocks (a + 1) ∷ [] else [])) }
    ensures front { StartsWith cleared.new.items cleared.old.items }
{
    let v = view(space, types, a);
    let target = ref_at(space, v, a, 0);
    if target == 0 {
        return Ok(());
    }
    let now = place_now(space, target);
    if survives(space, nursery, now) {
        set_ref(space, v, a, 0, now);
        return Ok(());
    }
    cleared.push(v.birth)?;
    set_ref(space, v, a, 0, 0);
    Ok(())
}

/// Clears the targets of these weak objects that marking did not visit, and appends the births of
/// the objects that lose them.
pub(crate) fn clear_unvisited(
    places: &[u64],
    space: &mut Space,
    types: &TypeTable,
    nursery: &Nursery,
    cleared: &mut Vec<u64>,
) -> Result<(), AllocError>
    requires { (all : List ℕ) × CanClear types.now nursery.now.words space.old places.now all }
    ensures targets { OnOk result (ChangesTargets types.now
        (kept_target nursery.now.words (word_at space.old.blocks)) space.old space.new places.now) }
    ensures told { OnOk result (cleared.new.items
        ≡ cleared.old.items ++ births_losing types.now (word_at space.old.blocks)
        (was_unvisited nursery.now.words (word_at space.old.blocks)) places.now) }
    ensures front { StartsWith cleared.new.items cleared.old.items }
{
    for a in places {
        clear_target(space, types, nursery, *a, cleared)?;
    }
    Ok(())
}

// Clears the target of one weak object and appends the object's birth, if marking did not visit
// the target.
fn clear_target(
    space: &mut Space,
    types: &TypeTable,
    nursery: &Nursery,
    a: u64,
    cleared: &mut Vec<u64>,
) -> Result<(), AllocError>
    requires object { HasObject space.old types.now a }
    requires weak { (info_at types.now (word_at space.old.blocks) a).shape ≡ Weak }
    requires target { IsTrue (lies_outside nursery.now.words
        (target_at types.now (word_at space.old.blocks) a))
        → IsTrue (has space.old.blocks (target_at types.now (word_at space.old.blocks) a)) }
    ensures target { OnOk result (SetsWord (target_place types.now (word_at space.old.blocks) a)
        (kept_target nursery.now.words (word_at space.old.blocks)
        (target_at types.now (word_at space.old.blocks) a))
        space.old space.new) }
    ensures told { OnOk result (cleared.new.items ≡ cleared.old.items
        ++ (if was_unvisited nursery.now.words (word_at space.old.blocks)
        (target_at types.now (word_at space.old.blocks) a)
        then word_at space.old.blocks (a + 1) ∷ [] else [])) }
    ensures front { StartsWith cleared.new.items cleared.old.items }
{
    let v = view(space, types, a);
    let target = ref_at(space, v, a, 0);
    if !is_unvisited(space, nursery, target) {
        return Ok(());
    }
    cleared.push(v.birth)?;
    set_ref(space, v, a, 0, 0);
    Ok(())
}

// Whether the place lies outside the nursery and marking did not visit its object.
fn is_unvisited(space: &Space, nursery: &Nursery, a: u64) -> bool
    requires { IsTrue (lies_outside nursery.now.words a) → IsTrue (has space.now.blocks a) }
    ensures { result ≡ was_unvisited nursery.now.words (word_at space.now.blocks) a }
{
    is_outside(nursery, a) && !is_set(space.read(a), Flag::Visited)
}
