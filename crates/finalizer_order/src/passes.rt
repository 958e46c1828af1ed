//! The passes over dying objects. An object goes through four states, in the flags Order1 and Order2: no
//! pass reached it; the first pass did; both did; it is chosen.

ghost use Rattle.std.specs.Prelude.{◌≡◌, ◌<◌, ◌++◌, ◌+◌, [], ℕ, IsTrue, OnOk, OnErr, filter, not, map};
ghost use Rattle.std.specs.List.Sorted.{IsPermutation, IsNonDecreasing};
ghost use Rattle.heap_space.specs.Places.{has, word_at};
ghost use Rattle.object_header.specs.Words.{without_flag};
ghost use Rattle.object_model.specs.Sets.{is_in};
ghost use Rattle.finalizer_order.specs.Finalizers.{places_of};
ghost use Rattle.finalizer_order.specs.Changes.{changed_at};
ghost use Rattle.finalizer_order.specs.Choosing.{CanChoose};
ghost use Rattle.finalizer_order.specs.Passes.{CanPass, PassesFirst, PassesSecond, NoneLeadsLater, HasPassed, HaveHeads, Settles, is_ordered, settled_word};
ghost use Rattle.finalizer_order.specs.Unvisited.{is_unvisited, Reaches, AreUnvisited};

use crate::entry::Entry;
use crate::marking::{is_unmarked, mark_from};
use heap_space::Space;
use nursery_gaps::Nursery;
use object_header::{Flag, clear, is_set, set};
use std::alloc::{AllocError, Global};
use type_table::TypeTable;

/// The lists that the passes need. They are kept from one choice to the next, so that it takes no memory
/// where an earlier one was as large.
#[derive(Drop)]
pub(crate) struct Passes {
    /// What the first pass marked, which is all that is kept.
    marked: Vec<u64>,
    /// What the second pass marked.
    again: Vec<u64>,
    /// The dying objects which no earlier one reaches.
    candidates: Vec<u64>,
    /// The candidates which no later one reaches.
    found: Vec<u64>,
    /// The births of what is kept.
    births: Vec<u64>,
    /// The registered objects that stay so.
    pub(crate) stays: Vec<Entry>,
    /// Those that are chosen.
    pub(crate) taken: Vec<Entry>,
}

impl Passes {
    /// Empty lists.
    pub(crate) fn new(alloc: Global) -> Passes {
        Passes {
            marked: Vec::new(alloc),
            again: Vec::new(alloc),
            candidates: Vec::new(alloc),
            found: Vec::new(alloc),
            births: Vec::new(alloc),
            stays: Vec::new(alloc),
            taken: Vec::new(alloc),
        }
    }

    /// Marks what is kept with Order1, and the chosen ones among the registered with Order2 alone.
    pub(crate) fn run(
        &mut self,
        space: &mut Space,
        types: &TypeTable,
        nursery: &Nursery,
        registered: &[Entry],
    ) -> Result<(), AllocError>
        requires { CanChoose space.old types.now nursery.now.words (places_of registered.now) }
        ensures { OnOk result
            (HasPassed types.now nursery.now.words space.old space.new (places_of registered.now) self.new.marked.items) }
    {
        self.marked.clear();
        self.again.clear();
        self.candidates.clear();
        self.found.clear();
        first_pass(
            space,
            types,
            nursery,
            registered,
            &mut self.marked,
            &mut self.candidates,
        )?;
        second_pass(
            space,
            types,
            nursery,
            &mut self.candidates,
            &mut self.again,
            &mut self.found,
        )?;
        set_chosen(space, &self.found);
        Ok(())
    }

    /// Tells the chosen objects among the registered, which have Order2 alone, from those that stay so.
    pub(crate) fn split(
        &mut self,
        space: &Space,
        nursery: &Nursery,
        registered: &[Entry],
    ) -> Result<(), AllocError>
        requires { (p : ℕ) → IsTrue (is_in p (places_of registered.now)) → nursery.now.words < p → IsTrue (has space.now.blocks p) }
        ensures stays { OnOk result (self.new.stays.items
            ≡ filter (λ entry. not (is_ordered nursery.now.words (word_at space.now.blocks) entry.place)) registered.now) }
        ensures taken { OnOk result (self.new.taken.items
            ≡ filter (λ entry. is_ordered nursery.now.words (word_at space.now.blocks) entry.place) registered.now) }
        ensures marked { self.new.marked.items ≡ self.old.marked.items }
    {
        self.stays.clear();
        self.taken.clear();
        split(space, nursery, registered, &mut self.stays, &mut self.taken)
    }

    /// Visits the marked objects, takes the flags of the passes off them, and appends their births, by
    /// rising birth. Without memory nothing is appended.
    pub(crate) fn settle(
        &mut self,
        space: &mut Space,
        kept: &mut Vec<u64>,
    ) -> Result<(), AllocError>
        requires { HaveHeads space.old self.old.marked.items }
        ensures settled { OnOk result
            (Settles self.old.marked.items space.old space.new kept.old.items kept.new.items) }
        ensures err { OnErr result (kept.new.items ≡ kept.old.items) }
    {
        self.births.clear();
        visit_all(space, &self.marked, &mut self.births)?;
        self.births.sort_unstable();
        kept.extend_from_slice(&self.births)
    }
}

// From the first registered object to the last: a dying one that is unmarked is a candidate, and marks
// what it leads to with Order1.
fn first_pass(
    space: &mut Space,
    types: &TypeTable,
    nursery: &Nursery,
    registered: &[Entry],
    marked: &mut Vec<u64>,
    candidates: &mut Vec<u64>,
) -> Result<(), AllocError>
    requires can { CanPass Flag.Order1 space.old types.now nursery.now.words (places_of registered.now) }
    requires none_marked { marked.old.items ≡ [] }
    requires no_candidates { candidates.old.items ≡ [] }
    ensures { OnOk result
        (PassesFirst types.now nursery.now.words space.old space.new (places_of registered.now) marked.new.items candidates.new.items) }
{
    for entry in registered {
        if is_unmarked(space, nursery, Flag::Order1, entry.place) {
            candidates.push(entry.place)?;
            mark_from(space, types, nursery, Flag::Order1, entry.place, marked)?;
        }
    }
    Ok(())
}

// From the last candidate to the first: one that is unmarked is found, and marks what it leads to with
// Order2.
fn second_pass(
    space: &mut Space,
    types: &TypeTable,
    nursery: &Nursery,
    candidates: &mut Vec<u64>,
    again: &mut Vec<u64>,
    found: &mut Vec<u64>,
) -> Result<(), AllocError>
    requires can { CanPass Flag.Order2 space.old types.now nursery.now.words candidates.old.items }
    requires unvisited { AreUnvisited nursery.now.words (word_at space.old.blocks) candidates.old.items }
    requires none_later { NoneLeadsLater (Reaches types.now nursery.now.words (word_at space.old.blocks)) candidates.old.items }
    requires none_marked { again.old.items ≡ [] }
    requires none_found { found.old.items ≡ [] }
    ensures { OnOk result
        (PassesSecond types.now nursery.now.words space.old space.new candidates.old.items again.new.items found.new.items) }
{
    while let Some(place) = candidates.pop() {
        if is_unmarked(space, nursery, Flag::Order2, place) {
            found.push(place)?;
            mark_from(space, types, nursery, Flag::Order2, place, again)?;
        }
    }
    Ok(())
}

// Takes Order1 off the found ones, so that they have Order2 alone.
fn set_chosen(space: &mut Space, found: &[u64])
    requires { (p : ℕ) → IsTrue (is_in p found.now) → IsTrue (has space.old.blocks p) }
    ensures { space.new ≡ record space.old {
      blocks = changed_at (λ word. without_flag word Flag.Order1) found.now space.old.blocks;
    } }
{
    for place in found {
        let word = space.read(*place);
        space.write(*place, clear(word, Flag::Order1));
    }
}

// Whether the object at the place is chosen.
fn is_chosen(space: &Space, nursery: &Nursery, place: u64) -> bool
    requires { nursery.now.words < place → IsTrue (has space.now.blocks place) }
    ensures { result ≡ is_ordered nursery.now.words (word_at space.now.blocks) place }
{
    if place == 0 || nursery.holds(place) {
        return false;
    }
    let word = space.read(place);
    is_set(word, Flag::Order2) && !is_set(word, Flag::Order1)
}

// Tells the chosen objects among the registered from those that stay registered.
fn split(
    space: &Space,
    nursery: &Nursery,
    registered: &[Entry],
    stays: &mut Vec<Entry>,
    taken: &mut Vec<Entry>,
) -> Result<(), AllocError>
    requires { (p : ℕ) → IsTrue (is_in p (places_of registered.now)) → nursery.now.words < p → IsTrue (has space.now.blocks p) }
    ensures stays { OnOk result (stays.new.items ≡ stays.old.items
        ++ filter (λ entry. not (is_ordered nursery.now.words (word_at space.now.blocks) entry.place)) registered.now) }
    ensures taken { OnOk result (taken.new.items ≡ taken.old.items
        ++ filter (λ entry. is_ordered nursery.now.words (word_at space.now.blocks) entry.place) registered.now) }
{
    for entry in registered {
        if is_chosen(space, nursery, entry.place) {
            taken.push(*entry)?;
        } else {
            stays.push(*entry)?;
        }
    }
    Ok(())
}

// Visits the marked objects, takes the flags of the passes off them, and appends their births.
fn visit_all(space: &mut Space, marked: &[u64], births: &mut Vec<u64>) -> Result<(), AllocError>
    requires { HaveHeads space.old marked.now }
    ensures visited { OnOk result
        (space.new ≡ record space.old { blocks = changed_at settled_word marked.now space.old.blocks }) }
    ensures births { OnOk result (births.new.items
        ≡ births.old.items ++ map (λ p. word_at space.old.blocks (p + 1)) marked.now) }
{
    // The places of a space are below 2^63.
    let _ordered = space.arena_words();
    for place in marked {
        births.push(space.read(*place + 1))?;
        let word = space.read(*place);
        space.write(*place, settled(word));
    }
    Ok(())
}

// The header of an object that is kept, once the passes are over.
fn settled(word: u64) -> u64
    ensures { result ≡ settled_word word }
{
    set(
        clear(clear(word, Flag::Order1), Flag::Order2),
        Flag::Visited,
    )
}
