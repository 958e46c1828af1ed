//! The weak objects of the heap, and what becomes of their targets in a collection. A weak object
//! has one target, which it does not keep alive.
#![tactic(auto)]

ghost use Rattle.std.specs.Prelude.{◌≡◌, ◌++◌, ◌∷◌, [], ℕ, ◌<◌, List, length, IfOk, OnOk, OnErr, not, filter};
ghost use Rattle.std.specs.List.Sorted.{IsNonDecreasing};
ghost use Rattle.heap_space.specs.Places.{word_at};
ghost use Rattle.object_model.specs.Sets.{is_in};
ghost use Rattle.weak_lists.specs.Targets.{weaks_left, is_gone, followed, is_unvisited, kept_target, ChangesTargets};
ghost use Rattle.weak_lists.specs.Conditions.{CanFollow, CanClear};
ghost use Rattle.weak_lists.specs.Cleared.{StartsWith, births_losing, TellsInOrder};

mod order;
mod places;
mod targets;

use crate::order::{holds, sort_from};
use crate::places::drop_vanished;
use crate::targets::{clear_unvisited, follow_targets};
use heap_space::Space;
use nursery_gaps::Nursery;
use std::alloc::{AllocError, Global};
use std::marker::Model;
use type_table::TypeTable;

/// How many places a new list has room for.
const FIRST_ROOM: usize = 16;

/// The places of the weak objects. A contract sees them as a list, in the order in which they were
/// added.
#[derive(Drop)]
pub struct Weaks {
    places: Vec<u64>,
}

impl Model for Weaks {
    ghost use Rattle.std.specs.Prelude.{ℕ, List};

    ghost Value = { List ℕ };

    ghost view = { λ w. w.places.items };
}

impl Weaks {
    /// No weak object.
    pub fn new(alloc: Global) -> Result<Weaks, AllocError>
        ensures { IfOk result (λ weaks. weaks ≡ []) }
    {
        Ok(Weaks {
            places: Vec::with_capacity(alloc, FIRST_ROOM)?,
        })
    }

    /// Adds the weak object at the place `a`. Without memory nothing changes.
    pub fn add(&mut self, a: u64) -> Result<(), AllocError>
        ensures ok { OnOk result (self.new ≡ self.old ++ a ∷ []) }
        ensures err { OnErr result (self.new ≡ self.old) }
    {
        self.places.push(a)?;
        Ok(())
    }

    /// Says that the weak object that was added last stands at the place `a`. So room can be asked for before an object is
    /// born.
    pub fn place_last(&mut self, a: u64)
        requires { 0 < length self.old }
        ensures { (front : List ℕ) (x : ℕ) → self.old ≡ front ++ x ∷ [] → self.new ≡ front ++ a ∷ [] }
    {
        let last = self.places.len() - 1;
        self.places[last] = a;
    }

    /// Takes what was added last off the list.
    pub fn drop_last(&mut self)
        requires { 0 < length self.old }
        ensures { (front : List ℕ) (x : ℕ) → self.old ≡ front ++ x ∷ [] → self.new ≡ front }
    {
        let _last = self.places.pop();
    }

    /// Follows the weak objects and their targets through a minor collection that has moved what it
    /// moves. A weak object that moved is listed at its new place, and one that vanished no longer.
    /// The targets of the listed ones follow, and one that vanished becomes nil. The births of the
    /// weak objects whose targets vanished are appended to `cleared` in rising order. What is in
    /// the nursery survived exactly where it moved or is pinned. In the space nothing but targets
    /// changes. (Which targets are cleared is PyPy's rule; the order is this project's own.)
    ///
    /// Without memory the list and the space are spent, and `cleared` still begins with what it
    /// held.
    pub fn after_minor(
        &mut self,
        space: &mut Space,
        types: &TypeTable,
        nursery: &Nursery,
        cleared: &mut Vec<u64>,
    ) -> Result<(), AllocError>
        requires { (places : List ℕ)
            × CanFollow types.now nursery.now.words space.old self.old places }
        ensures left { OnOk result
            (self.new ≡ weaks_left nursery.now.words (word_at space.old.blocks) self.old) }
        ensures targets { OnOk result (ChangesTargets types.now
            (followed nursery.now.words (word_at space.old.blocks)) space.old space.new
            (weaks_left nursery.now.words (word_at space.old.blocks) self.old)) }
        ensures told { OnOk result (TellsInOrder (births_losing types.now (word_at space.old.blocks)
            (is_gone nursery.now.words (word_at space.old.blocks))
            (weaks_left nursery.now.words (word_at space.old.blocks) self.old))
            cleared.old.items cleared.new.items) }
        ensures front { StartsWith cleared.new.items cleared.old.items }
    {
        // The places of a space are above 0.
        let _ordered = space.arena_words();
        drop_vanished(&mut self.places, space, nursery);
        let told = cleared.len();
        follow_targets(&self.places, space, types, nursery, cleared)?;
        sort_from(cleared, told);
        Ok(())
    }

    /// Clears the targets outside the nursery that marking did not visit, and appends the births of
    /// the weak objects that lose them to `cleared` in rising order. In the space nothing but these
    /// targets changes, and the list stays. (Which targets are cleared is PyPy's rule; the order is
    /// this project's own.)
    ///
    /// Without memory the space is spent, and `cleared` still begins with what it held.
    pub fn after_marking(
        &mut self,
        space: &mut Space,
        types: &TypeTable,
        nursery: &Nursery,
        cleared: &mut Vec<u64>,
    ) -> Result<(), AllocError>
        requires { (places : List ℕ)
            × CanClear types.now nursery.now.words space.old self.old places }
        ensures left { self.new ≡ self.old }
        ensures targets { OnOk result (ChangesTargets types.now
            (kept_target nursery.now.words (word_at space.old.blocks)) space.old space.new self.old) }
        ensures told { OnOk result (TellsInOrder (births_losing types.now (word_at space.old.blocks)
            (is_unvisited nursery.now.words (word_at space.old.blocks)) self.old)
            cleared.old.items cleared.new.items) }
        ensures front { StartsWith cleared.new.items cleared.old.items }
    {
        let told = cleared.len();
        clear_unvisited(&self.places, space, types, nursery, cleared)?;
        sort_from(cleared, told);
        Ok(())
    }

    /// Takes these places off the list. The others keep their order.
    pub fn drop_dead(&mut self, dead: &[u64])
        requires { IsNonDecreasing dead.now }
        ensures { self.new ≡ filter (λ a. not (is_in a dead.now)) self.old }
    {
        self.places.retain(
            |a: &u64| -> bool
                requires { IsNonDecreasing dead.now }
                ensures { result ≡ not (is_in a.now dead.entry.now) }
            { !holds(dead, *a) },
        );
    }
}
