//! References that are followed, and objects that move.

ghost use Rattle.std.specs.Prelude.{◌≡◌, ◌+◌, ◌-◌, ◌≤◌, ℕ, List, [], ◌∷◌, None, Some, IfOk, OnOk, IsTrue, ◌≢◌, false};
ghost use Rattle.object_model.specs.Sets.{is_in};
ghost use Rattle.object_model.specs.ObjectWords.{words_at};
ghost use Rattle.rawref_links.specs.Conditions.{HasNoLink};
ghost use Rattle.heap_space.specs.Extents.{Extent};
ghost use Rattle.heap_space.specs.Places.{lies_in_one};
ghost use Rattle.object_model.specs.Holds.{IsPointer};
ghost use Rattle.object_view.specs.Views.{HasObject};
ghost use Rattle.old_space.specs.HasBlocks.{HasBlocks, page_size};
ghost use Rattle.old_space.specs.Calls.{BeginsLive};
ghost use Rattle.heap_parts.specs.Parts.{home_in, word_in, pinned_places};
ghost use Rattle.heap_parts.specs.Headers.{keeps_cards as keeps_cards_of};
ghost use Rattle.heap_parts.specs.OldSpace.{is_waiting};
ghost use Rattle.heap_parts.specs.Places.{is_young as lies_young, old_places};
ghost use Rattle.minor_collect.specs.Midway.{is_lasting};
ghost use Rattle.minor_collect.specs.Calls.{MayBeFound, Standing, Followed, CanMoveOut, CanFollow, relinked, CanHold, HeldFor, leads_young as does_lead_young};
ghost use Rattle.minor_collect.specs.Calls.{Stage, Spot, Middle, CanTake, TookRoom, CanFollowStill, FollowsStill, Waits, CanSettle, CanRelocate, Settled, settled_word, settled_word_of, settled_memory};

use crate::work::Moving;
use heap_parts::Parts;
use heap_space::Space;
use object_header::{Flag, clear, is_set, set, type_id};
use object_view::words_of;
use std::alloc::AllocError;
use type_table::Shape;

/// The first word of an object that moved. Its second word is then where it is.
pub(crate) const MOVED: u64 = u64::MAX;

// The place of the first word outside the nursery.
const FIRST_OLD: u64 = 4_294_967_296;

/// Whether a place lies in the nursery.
pub(crate) fn is_young(place: u64) -> bool
    ensures { result ≡ lies_young place }
{
    place < FIRST_OLD
}

/// Where a reference leads from now on. Its object moves out of the nursery if it waits to. The error is out of memory.
pub(crate) fn follow(parts: &mut Parts, moving: &mut Moving, x: u64) -> Result<u64, AllocError>
    requires { CanFollow parts.old moving.old x }
    ensures { (stage : Stage) (spot : Spot) → Standing stage parts.old moving.old spot → IsPointer spot.placing.met x → (x ≢ 0 → MayBeFound stage (spot.placing.name x))
        → IfOk result (λ y. Followed stage parts.old parts.new moving.old moving.new spot x y) }
{
    if let Some(y) = follow_still(parts, x) {
        return Ok(y);
    }
    move_out(parts, moving, x)
}

/// Where a reference leads, unless its object must move first: nil, what is outside the nursery and what is pinned stay,
/// and what moved tells its place.
fn follow_still(parts: &Parts, x: u64) -> Option<u64>
    requires { CanFollowStill parts.now x }
    ensures { (stage : Stage) (spot : Spot) → Middle stage parts.now spot [] → IsPointer spot.placing.met x → FollowsStill stage spot x result }
{
    if x == 0 {
        return Some(x);
    }
    if !is_young(x) {
        return Some(x);
    }
    let head = parts.space.read(x);
    if head == MOVED {
        return Some(parts.space.read(x + 1));
    }
    if is_set(head, Flag::Pinned) {
        return Some(x);
    }
    None
}

/// Moves an object out of the nursery, and lets its links lead there. Its references are to be followed.
fn move_out(parts: &mut Parts, moving: &mut Moving, p: u64) -> Result<u64, AllocError>
    requires { CanMoveOut parts.old moving.old p }
    ensures { (stage : Stage) (spot : Spot) → Standing stage parts.old moving.old spot → IsTrue (is_in p spot.placing.places) → is_lasting (pinned_places stage.start) p ≡ false → MayBeFound stage (spot.placing.name p)
        → IfOk result (λ a. Followed stage parts.old parts.new moving.old moving.new spot p a) }
{
    let n = size_of(parts, p);
    let a = relocate(parts, p, n)?;
    relink(parts, p, a)?;
    moving.note(a, n)?;
    Ok(a)
}

/// The words of the object at a place.
pub(crate) fn size_of(parts: &Parts, p: u64) -> u64
    requires { HasObject parts.now.memory parts.now.setup.types p }
    ensures { result ≡ words_at parts.now.setup.types (word_in parts.now) p }
{
    words_of(&parts.space, &parts.types, p)
}

/// Lets the links with the object at p lead to a, where it is now and to which none led. The error is out of memory.
fn relink(parts: &mut Parts, p: u64, a: u64) -> Result<(), AllocError>
    requires { HasNoLink parts.old.links.structs a }
    ensures { OnOk result (parts.new ≡ relinked parts.old p a) }
{
    parts.links.moved(p, a)
}

/// Moves the object at p, of n words, into the home that was reserved for it, or else into a block that is taken for it.
fn relocate(parts: &mut Parts, p: u64, n: u64) -> Result<u64, AllocError>
    requires { CanRelocate parts.old p n }
    ensures { (stage : Stage) (spot : Spot) → Middle stage parts.old spot [] → Waits stage parts.old spot p n → IfOk result (λ a. Settled stage parts.old parts.new spot p n a) }
{
    if let Some(home) = parts.shadows.home(p) {
        go_home(parts, p, n, home);
        return Ok(home);
    }
    let a = take_room(parts, n)?;
    settle(parts, p, n, a);
    Ok(a)
}

/// Moves the object at p, of n words, into its home, which is reserved no more.
fn go_home(parts: &mut Parts, p: u64, n: u64, home: u64)
    requires waits { CanRelocate parts.old p n }
    requires home { home_in parts.old p ≡ Some home }
    ensures { (stage : Stage) (spot : Spot) → Middle stage parts.old spot [] → Waits stage parts.old spot p n → Settled stage parts.old parts.new spot p n home }
{
    let head = settled_header(parts, p, n, home);
    move_words(&mut parts.space, p, n, home, head);
    parts.shadows.take_home(p);
}

/// Moves the object at p, of n words, into the block at a, which was taken.
fn settle(parts: &mut Parts, p: u64, n: u64, a: u64)
    requires waits { CanSettle parts.old p n a }
    requires homeless { home_in parts.old p ≡ None }
    ensures { (stage : Stage) (spot : Spot) → Middle stage parts.old spot ((a, n) ∷ []) → Waits stage parts.old spot p n → Settled stage parts.old parts.new spot p n a }
{
    let head = settled_header(parts, p, n, a);
    move_words(&mut parts.space, p, n, a, head);
}

/// Takes a block of n words for an object.
fn take_room(parts: &mut Parts, n: u64) -> Result<u64, AllocError>
    requires { CanTake parts.old n }
    ensures { (stage : Stage) (spot : Spot) → Middle stage parts.old spot [] → IfOk result (λ a. TookRoom stage parts.old parts.new spot n a) }
{
    parts.old_blocks.take(&mut parts.space, n)
}

/// The first word of the object at p, of n words, once it is settled at a: writes of references into it are tracked, and where its
/// block waits to be swept it counts as visited.
fn settled_header(parts: &Parts, p: u64, n: u64, a: u64) -> u64
    requires object { HasObject parts.now.memory parts.now.setup.types p }
    requires words { n ≡ words_at parts.now.setup.types (word_in parts.now) p }
    requires block { BeginsLive parts.now.old_blocks parts.now.memory a }
    ensures { (live : List Extent) (waiting : List ℕ) → HasBlocks parts.now.old_blocks parts.now.memory live waiting → result ≡ settled_word_of parts.now p (is_waiting (page_size parts.now.old_blocks) waiting a) }
{
    // The places of a space are below 2^63.
    let _ordered = parts.space.arena_words();
    let type_id = type_id(parts.space.read(p));
    let shape = parts.types.get(type_id).unwrap().shape;
    let cards = keeps_cards(parts.settings.card, shape, n);
    let waits = parts.old_blocks.waits(&parts.space, a);
    header_of(type_id, cards, waits)
}

/// The first word of a settled object of a type: whether it keeps cards, and whether it counts as visited.
fn header_of(type_id: u16, cards: bool, visited: bool) -> u64
    ensures { result ≡ settled_word type_id cards visited }
{
    let tracked = set(u64::from(type_id), Flag::Track);
    let carded = if cards {
        set(tracked, Flag::HasCards)
    } else {
        tracked
    };
    if visited {
        return set(carded, Flag::Visited);
    }
    carded
}

/// Whether an object of so many words keeps cards: an array of more references than a card has items.
fn keeps_cards(card: u64, shape: Shape, words: u64) -> bool
    ensures { result ≡ keeps_cards_of card shape (words - 3) }
{
    match shape {
        Shape::RefArray => words.saturating_sub(3) > card,
        Shape::IntArray | Shape::Fixed { .. } | Shape::Weak => false,
    }
}

/// Copies the n words of the object at p to a, and leaves the way there. The copy gets another first word.
fn move_words(space: &mut Space, p: u64, n: u64, a: u64, head: u64)
    requires source { IsTrue (lies_in_one space.old.blocks p n) }
    requires target { IsTrue (lies_in_one space.old.blocks a n) }
    requires apart { p + n ≤ a }
    requires n { 2 ≤ n }
    ensures { space.new ≡ settled_memory space.old p n a head }
{
    // The places of a space are below 2^63.
    let _ordered = space.arena_words();
    space.copy_words(p, a, n);
    space.write(p, MOVED);
    space.write(p + 1, a);
    space.write(a, head);
}

/// Holds the object at p for the next minor collection where it is to refer to a pinned object, at y. The error is out of
/// memory.
pub(crate) fn hold_for(parts: &mut Parts, p: u64, y: u64) -> Result<(), AllocError>
    requires { CanHold parts.old p }
    ensures { (stage : Stage) (spot : Spot) → Middle stage parts.old spot [] → IsTrue (is_in p (old_places spot.placing.places)) → OnOk result (HeldFor stage parts.old parts.new spot p y) }
{
    if !leads_young(y) {
        return Ok(());
    }
    parts.remember.keep_for_pinned(p)?;
    let head = parts.space.read(p);
    parts.space.write(p, clear(head, Flag::Track));
    Ok(())
}

/// Whether a reference leads to an object in the nursery.
fn leads_young(y: u64) -> bool
    ensures { result ≡ does_lead_young y }
{
    y != 0 && is_young(y)
}
