//! Visits of gray objects, over a queue of places.

ghost use Rattle.std.specs.Prelude.{◌≡◌, ◌+◌, ◌++◌, ◌∷◌, ◌<◌, ◌||◌, ℕ, List, [], IsTrue, not, IfOk, OnOk, filter};
ghost use Rattle.heap_space.specs.Places.{has, word_at};
ghost use Rattle.object_view.specs.Views.{HasObject, HasView, view_at};
ghost use Rattle.object_model.specs.ObjectWords.{words_from, words_at};
ghost use Rattle.mark_steps.specs.Visits.{is_outside, is_visited, outside_refs, with_visited, CanVisit};
ghost use Rattle.mark_steps.specs.Ends.{Marks, StartsWith};

use crate::MarkEnd;
use heap_space::Space;
use nursery_gaps::Nursery;
use object_header::{Flag, is_set, set};
use object_view::{ObjView, ref_at, view};
use std::alloc::AllocError;
use std::collections::VecDeque;
use type_table::TypeTable;

/// Visits the objects whose places wait, and appends their births, until their words reach the
/// budget or no place waits.
pub(crate) fn visit_all(
    places: &mut VecDeque<u64>,
    space: &mut Space,
    types: &TypeTable,
    nursery: &Nursery,
    budget: u64,
    visited: &mut Vec<u64>,
) -> Result<MarkEnd, AllocError>
    requires budget { 0 < budget }
    requires sound { (all : List ℕ)
        × CanVisit types.now nursery.now.words space.old places.old.items all }
    ensures ok { IfOk result (Marks types.now nursery.now.words budget
        space.old places.old.items visited.old.items space.new places.new.items visited.new.items) }
    ensures front { StartsWith visited.new.items visited.old.items }
{
    let mut left = budget;
    while let Some(a) = places.pop_front() {
        if !is_passed(space, nursery, a) {
            let words = visit(places, space, types, nursery, a, visited)?;
            if words >= left {
                return Ok(MarkEnd::Budget);
            }
            left -= words;
        }
    }
    Ok(MarkEnd::Empty {
        words: budget - left,
    })
}

// Whether the place is nil, lies in the nursery, or is that of an object that carries the mark.
fn is_passed(space: &Space, nursery: &Nursery, a: u64) -> bool
    requires { IsTrue (is_outside nursery.now.words a) → IsTrue (has space.now.blocks a) }
    ensures { result ≡ (not (is_outside nursery.now.words a) || is_visited space.now a) }
{
    !leads_outside(nursery, a) || is_set(space.read(a), Flag::Visited)
}

// Marks the object at the place a, appends its birth, and queues what it refers to outside the
// nursery. Tells the object's words.
fn visit(
    places: &mut VecDeque<u64>,
    space: &mut Space,
    types: &TypeTable,
    nursery: &Nursery,
    a: u64,
    visited: &mut Vec<u64>,
) -> Result<u64, AllocError>
    requires { HasObject space.old types.now a }
    ensures words { IfOk result (λ words. words ≡ words_at types.now (word_at space.old.blocks) a) }
    ensures marked { OnOk result (space.new ≡ with_visited space.old a) }
    ensures birth { OnOk result (visited.new.items
        ≡ visited.old.items ++ word_at space.old.blocks (a + 1) ∷ []) }
    ensures queued { OnOk result (places.new.items ≡ places.old.items
        ++ outside_refs types.now nursery.now.words (word_at space.old.blocks) a) }
    ensures front { StartsWith visited.new.items visited.old.items }
{
    let v = view(space, types, a);
    visited.push(v.birth)?;
    push_refs(places, space, nursery, v, a)?;
    let header = space.read(a);
    space.write(a, set(header, Flag::Visited));
    Ok(v.words)
}

// Queues what the object at the place a refers to outside the nursery, in item order.
fn push_refs(
    places: &mut VecDeque<u64>,
    space: &Space,
    nursery: &Nursery,
    v: ObjView,
    a: u64,
) -> Result<(), AllocError>
    requires { HasView space.now v a }
    ensures { OnOk result (places.new.items ≡ places.old.items ++ filter (is_outside nursery.now.words)
        (words_from (word_at space.now.blocks) v.ref_start v.ref_count)) }
{
    for i in 0..v.ref_count {
        let to = ref_at(space, v, a, i);
        if leads_outside(nursery, to) {
            places.push_back(to)?;
        }
    }
    Ok(())
}

// Whether the place is neither nil nor held by the nursery.
fn leads_outside(nursery: &Nursery, a: u64) -> bool
    ensures { result ≡ is_outside nursery.now.words a }
{
    a != 0 && !nursery.holds(a)
}
