//! Where objects are after a minor collection. An object that moved left all bits in its first word
//! and its new place in the second.

ghost use Rattle.std.specs.Prelude.{◌≡◌, ℕ, ◌==◌, map, IsTrue, not, if◌then◌else◌};
ghost use Rattle.heap_space.specs.Places.{has, word_at, lies_in_one};
ghost use Rattle.object_model.specs.Sets.{is_in};
ghost use Rattle.object_view.specs.Moving.{place_now as place_of};
ghost use Rattle.weak_lists.specs.Targets.{is_outside as lies_outside, survives as has_survived, weaks_left, left_at};
ghost use Rattle.weak_lists.specs.Conditions.{CanRead};

use heap_space::Space;
use nursery_gaps::Nursery;
use object_header::{Flag, is_set};

/// The first word of an object that moved.
const MOVED: u64 = u64::MAX;

/// Lists the objects that survived at the places where they are now, and drops the others.
pub(crate) fn drop_vanished(places: &mut Vec<u64>, space: &Space, nursery: &Nursery)
    requires { (x : ℕ) → IsTrue (is_in x places.old.items) → CanRead space.now x }
    ensures { places.new.items
        ≡ weaks_left nursery.now.words (word_at space.now.blocks) places.old.items }
{
    // The places of a space are above 0.
    let _ordered = space.arena_words();
    follow_places(places, space, nursery);
    places.retain(
        |a: &u64| -> bool
            ensures { result ≡ not (a.now == 0) }
        { *a != 0 },
    );
}

// Puts for each place the one where its object is now, and 0 where it vanished.
fn follow_places(places: &mut Vec<u64>, space: &Space, nursery: &Nursery)
    requires { (x : ℕ) → IsTrue (is_in x places.old.items) → CanRead space.now x }
    ensures { places.new.items
        ≡ map (left_at nursery.now.words (word_at space.now.blocks)) places.old.items }
{
    for place in places.iter_mut() {
        *place = place_left(space, nursery, *place);
    }
}

// Where the object of a place is now, and 0 where it vanished.
fn place_left(space: &Space, nursery: &Nursery, a: u64) -> u64
    requires { CanRead space.now a }
    ensures { result ≡ left_at nursery.now.words (word_at space.now.blocks) a }
{
    let now = place_now(space, a);
    if survives(space, nursery, now) {
        now
    } else {
        0
    }
}

/// Where the object of a place is now.
pub(crate) fn place_now(space: &Space, a: u64) -> u64
    requires { IsTrue (lies_in_one space.now.blocks a 2) }
    ensures { result ≡ place_of (word_at space.now.blocks) a }
{
    // The places of a space are above 0 and below 2^63.
    let _ordered = space.arena_words();
    if space.read(a) == MOVED {
        space.read(a + 1)
    } else {
        a
    }
}

/// Whether the object at a place survived the minor collection: it lies outside the nursery, or it
/// is pinned.
pub(crate) fn survives(space: &Space, nursery: &Nursery, a: u64) -> bool
    requires { IsTrue (has space.now.blocks a) }
    ensures { result ≡ has_survived nursery.now.words (word_at space.now.blocks) a }
{
    is_outside(nursery, a) || is_set(space.read(a), Flag::Pinned)
}

/// Whether the place is neither nil nor held by the nursery.
pub(crate) fn is_outside(nursery: &Nursery, a: u64) -> bool
    ensures { result ≡ lies_outside nursery.now.words a }
{
    a != 0 && !nursery.holds(a)
}
