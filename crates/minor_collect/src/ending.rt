//! What is left to be done once nothing moves any more.

ghost use Rattle.std.specs.Prelude.{◌≡◌, ◌+◌, ◌++◌, ◌<◌, ◌^◌, ℕ, List, [], ◌∷◌, filter, map, sum_by, IsTrue, true, false, OnOk, IfOk};
ghost use Rattle.object_model.specs.Sets.{is_in};
ghost use Rattle.std.specs.List.Sorted.{IsPermutation, IsNonDecreasing};
ghost use Rattle.object_header.specs.Words.{has_flag};
ghost use Rattle.object_header.specs.declared.flags.Flag.TheVariants.{Visited};
ghost use Rattle.object_view.specs.Views.{HasView, HasObject};
ghost use Rattle.object_model.specs.ObjectWords.{info_at};
ghost use Rattle.heap_parts.specs.Nursery.{walked};
ghost use Rattle.heap_parts.specs.Parts.{word_in, pinned_places};
ghost use Rattle.heap_parts.specs.Places.{young_places, block_at};
ghost use Rattle.minor_collect.specs.Remade.{AreObjectsAt, ListsPinned, words_of};
ghost use Rattle.minor_collect.specs.Gives.{Giving, GivesSome, AreGone, CanGive, CanGiveAll, GaveOne, GaveAll};
ghost use Rattle.minor_collect.specs.Walks.{CanSize, CanWalk, CanWalkAll, IsWalkBy, AreWalksBy, size_in, stands_at, is_gone_at, births_destroyed};
ghost use Rattle.minor_collect.specs.Queues.{CanQueue, CanQueueSpans, CanLookAt, Queues, queued_with, is_to_queue as is_to_queue_at};

use crate::items::{item, view_of};
use crate::moves::{MOVED, is_young, size_of};
use crate::spans::is_visited;
use heap_parts::Parts;
use object_header::{Flag, is_set, type_id};
use object_view::{ObjView, words_of};
use remember_cards::Span;
use std::alloc::AllocError;
use type_table::TypeInfo;

/// Queues for marking what the items of these spans refer to, span by span. What counts is as `queue_span` says. The error is out
/// of memory.
pub(crate) fn queue_written(parts: &mut Parts, spans: &[Span]) -> Result<(), AllocError>
    requires { CanQueueSpans parts.old spans.now }
    ensures { OnOk result (Queues parts.old parts.new spans.now) }
{
    for span in spans {
        queue_span(parts, *span)?;
    }
    Ok(())
}

/// Queues what the items of a span refer to, where marking visited their object: what lies outside the nursery and was not visited.
/// The error is out of memory.
fn queue_span(parts: &mut Parts, span: Span) -> Result<(), AllocError>
    requires { CanQueue parts.old span.a }
    ensures { OnOk result (Queues parts.old parts.new (span ∷ [])) }
{
    if !is_visited(parts, span.a) {
        return Ok(());
    }
    queue_items(parts, span)
}

/// Queues what the items of a span of a visited object refer to outside the nursery, and marking did not visit. The error is out
/// of memory.
fn queue_items(parts: &mut Parts, span: Span) -> Result<(), AllocError>
    requires can { CanQueue parts.old span.a }
    requires visited { has_flag (word_in parts.old span.a) Visited ≡ true }
    ensures { OnOk result (Queues parts.old parts.new (span ∷ [])) }
{
    let v = view_of(parts, span.a);
    for i in span.from..span.to.min(v.ref_count) {
        queue_item(parts, v, span.a, i)?;
    }
    Ok(())
}

/// Queues what a reference leads to, if that lies outside the nursery, and marking did not visit it.
fn queue_item(parts: &mut Parts, v: ObjView, q: u64, i: u64) -> Result<(), AllocError>
    requires view { HasView parts.old.memory v q }
    requires item { v.ref_start + i < q + v.words }
    requires leads { CanLookAt parts.old (word_in parts.old (v.ref_start + i)) }
    ensures { OnOk result (parts.new ≡ record parts.old { gray = queued_with (is_to_queue_at parts.old (word_in parts.old (v.ref_start + i))) parts.old.gray (word_in parts.old (v.ref_start + i)) }) }
{
    let y = item(parts, v, q, i);
    if is_to_queue(parts, y) {
        parts.gray.push(y)?;
    }
    Ok(())
}

/// Whether a reference leads to an object outside the nursery that marking did not visit.
fn is_to_queue(parts: &Parts, y: u64) -> bool
    requires { CanLookAt parts.now y }
    ensures { result ≡ is_to_queue_at parts.now y }
{
    if y == 0 || is_young(y) {
        return false;
    }
    !is_set(parts.space.read(y), Flag::Visited)
}

/// Lists what is gone: each object of the nursery that did not move and is not pinned. The error is out of memory.
pub(crate) fn list_dead(parts: &Parts, dead: &mut Vec<u64>) -> Result<(), AllocError>
    requires { CanWalkAll parts.now }
    ensures { (walks : List (List ℕ)) → AreWalksBy (size_in parts.now) parts.now.nursery.used walks → OnOk result (dead.new.items ≡ dead.old.items ++ filter (is_gone_at parts.now) (walked walks)) }
{
    let mut k = 0;
    while let Some((from, n)) = parts.nursery.used_range(k) {
        list_range(parts, from, from + n, dead)?;
        k += 1;
    }
    Ok(())
}

/// Lists what is gone of the objects that stood one behind another from a place up to an end. The error is out of memory.
fn list_range(parts: &Parts, from: u64, end: u64, dead: &mut Vec<u64>) -> Result<(), AllocError>
    requires { CanWalk parts.now from end }
    ensures { (places : List ℕ) → IsWalkBy (size_in parts.now) from places end → OnOk result (dead.new.items ≡ dead.old.items ++ filter (is_gone_at parts.now) places) }
{
    let mut p = from;
    while p < end {
        let n = size_at(parts, p);
        list_gone(parts, p, dead)?;
        p += n;
    }
    Ok(())
}

/// Lists a place if what stood there is gone.
fn list_gone(parts: &Parts, p: u64, dead: &mut Vec<u64>) -> Result<(), AllocError>
    requires { CanSize parts.now p }
    ensures { OnOk result (dead.new.items ≡ dead.old.items ++ filter (is_gone_at parts.now) (p ∷ [])) }
{
    if is_gone(parts, p) {
        dead.push(p)?;
    }
    Ok(())
}

/// The words of the object that stands at a place, or stood there before it moved.
fn size_at(parts: &Parts, p: u64) -> u64
    requires { CanSize parts.now p }
    ensures { result ≡ size_in parts.now p }
{
    size_of(parts, place_now(parts, p))
}

/// Where the object of a place is now.
fn place_now(parts: &Parts, p: u64) -> u64
    requires { CanSize parts.now p }
    ensures { result ≡ stands_at parts.now p }
{
    if parts.space.read(p) == MOVED {
        return parts.space.read(p + 1);
    }
    p
}

/// Whether what stood at a place is gone: it did not move, and is not pinned.
fn is_gone(parts: &Parts, p: u64) -> bool
    requires { CanSize parts.now p }
    ensures { result ≡ is_gone_at parts.now p }
{
    let head = parts.space.read(p);
    head != MOVED && !is_set(head, Flag::Pinned)
}

/// Lists the births of these objects that have a destructor, by rising birth. The error is out of memory.
pub(crate) fn list_destroyed(
    parts: &Parts,
    dead: &[u64],
    destroyed: &mut Vec<u64>,
) -> Result<(), AllocError>
    requires there { (p : ℕ) → IsTrue (is_in p dead.now) → HasObject parts.now.memory parts.now.setup.types p }
    requires empty { destroyed.old.items ≡ [] }
    ensures listed { OnOk result (IsPermutation (births_destroyed parts.now dead.now) destroyed.new.items) }
    ensures rising { OnOk result (IsNonDecreasing destroyed.new.items) }
{
    list_births(parts, dead, destroyed)?;
    destroyed.sort_unstable();
    Ok(())
}

/// Appends the births of these objects that have a destructor. The error is out of memory.
fn list_births(parts: &Parts, dead: &[u64], destroyed: &mut Vec<u64>) -> Result<(), AllocError>
    requires { (p : ℕ) → IsTrue (is_in p dead.now) → HasObject parts.now.memory parts.now.setup.types p }
    ensures { OnOk result (destroyed.new.items ≡ destroyed.old.items ++ births_destroyed parts.now dead.now) }
{
    for p in dead {
        list_birth(parts, *p, destroyed)?;
    }
    Ok(())
}

/// Appends the birth of the object at a place if it has a destructor. The error is out of memory.
fn list_birth(parts: &Parts, p: u64, destroyed: &mut Vec<u64>) -> Result<(), AllocError>
    requires { HasObject parts.now.memory parts.now.setup.types p }
    ensures { OnOk result (destroyed.new.items ≡ destroyed.old.items ++ births_destroyed parts.now (p ∷ [])) }
{
    if info_there(parts, p).destructor {
        destroyed.push(birth_there(parts, p))?;
    }
    Ok(())
}

/// The descriptor of the type of the object at a place.
fn info_there(parts: &Parts, p: u64) -> TypeInfo
    requires { HasObject parts.now.memory parts.now.setup.types p }
    ensures { result ≡ info_at parts.now.setup.types (word_in parts.now) p }
{
    // The places of a space are below 2^63.
    let _ordered = parts.space.arena_words();
    let word = parts.space.read(p);
    parts.types.get(type_id(word)).unwrap()
}

/// The birth of the object at a place.
fn birth_there(parts: &Parts, p: u64) -> u64
    requires { HasObject parts.now.memory parts.now.setup.types p }
    ensures { result ≡ word_in parts.now (p + 1) }
{
    // The places of a space are below 2^63.
    let _ordered = parts.space.arena_words();
    parts.space.read(p + 1)
}

/// Gives back the homes that were reserved for these objects.
pub(crate) fn give_homes_back(parts: &mut Parts, dead: &[u64])
    requires { CanGiveAll parts.old dead.now }
    ensures { (giving : Giving) → GivesSome giving parts.old → AreGone giving dead.now → GaveAll giving parts.old parts.new dead.now }
{
    for p in dead {
        give_home_back(parts, *p);
    }
}

/// Gives back the home that was reserved for the object at a place, if one was.
fn give_home_back(parts: &mut Parts, p: u64)
    requires { CanGive parts.old p }
    ensures { (giving : Giving) → GivesSome giving parts.old → IsTrue (is_in p (young_places giving.places)) → is_in p giving.pins ≡ false → GaveOne giving parts.old parts.new p }
{
    if let Some(home) = parts.shadows.take_home(p) {
        let n = words_of(&parts.space, &parts.types, p);
        parts.old_blocks.give_back(&mut parts.space, home, n);
    }
}

/// Lists the pinned objects with their words, by rising place, and tells how many words they have. The first list is scratch,
/// and both are empty before. The error is out of memory.
pub(crate) fn pinned_ranges(
    parts: &Parts,
    places: &mut Vec<u64>,
    pinned: &mut Vec<(u64, u64)>,
) -> Result<u64, AllocError>
    requires objects { AreObjectsAt parts.now (pinned_places parts.now) }
    requires few { sum_by (words_of parts.now) (pinned_places parts.now) < 2 ^ 64 }
    requires no_places { places.old.items ≡ [] }
    requires none { pinned.old.items ≡ [] }
    ensures { IfOk result (λ words. ListsPinned parts.now words pinned.new.items) }
{
    list_pinned(parts, places)?;
    let words = count_words(parts, places);
    places.sort_unstable();
    list_ranges(parts, places, pinned)?;
    Ok(words)
}

/// Appends the places of the pinned objects. The error is out of memory.
fn list_pinned(parts: &Parts, places: &mut Vec<u64>) -> Result<(), AllocError>
    ensures { OnOk result (places.new.items ≡ places.old.items ++ pinned_places parts.now) }
{
    append_places(parts.pins.as_slice(), places)
}

/// Appends the places of these pinned objects. The error is out of memory.
fn append_places(pins: &[(u64, u64)], places: &mut Vec<u64>) -> Result<(), AllocError>
    ensures { OnOk result (places.new.items ≡ places.old.items ++ map (λ pin. pin.0) pins.now) }
{
    for pin in pins {
        places.push(pin.0)?;
    }
    Ok(())
}

/// How many words the objects at these places have.
fn count_words(parts: &Parts, places: &[u64]) -> u64
    requires objects { AreObjectsAt parts.now places.now }
    requires few { sum_by (words_of parts.now) places.now < 2 ^ 64 }
    ensures { result ≡ sum_by (words_of parts.now) places.now }
{
    let mut words = 0;
    for p in places {
        words += size_of(parts, *p);
    }
    words
}

/// Appends the places of these objects with their words. The error is out of memory.
fn list_ranges(
    parts: &Parts,
    places: &[u64],
    ranges: &mut Vec<(u64, u64)>,
) -> Result<(), AllocError>
    requires { AreObjectsAt parts.now places.now }
    ensures { OnOk result (ranges.new.items ≡ ranges.old.items ++ map (block_at parts.now.setup.types (word_in parts.now)) places.now) }
{
    for p in places {
        list_block(parts, *p, ranges)?;
    }
    Ok(())
}

/// Appends the place of an object with its words. The error is out of memory.
fn list_block(parts: &Parts, p: u64, ranges: &mut Vec<(u64, u64)>) -> Result<(), AllocError>
    requires { HasObject parts.now.memory parts.now.setup.types p }
    ensures { OnOk result (ranges.new.items ≡ ranges.old.items ++ map (block_at parts.now.setup.types (word_in parts.now)) (p ∷ [])) }
{
    let n = size_of(parts, p);
    ranges.push((p, n))?;
    Ok(())
}
