//! The objects that are kept for the next collection, since they refer to pinned ones.

ghost use Rattle.std.specs.Prelude.{◌≡◌, ◌∷◌, ◌++◌, [], not, filter, if◌then◌else◌, OnOk, OnErr, IsSorted};
ghost use Rattle.std.specs.Ordering.{nat_cmp};
ghost use Rattle.object_model.specs.Sets.{is_in, AreDifferent};

use indexmap::IndexSet;
use std::alloc::{AllocError, Global};
use std::collections::VecDeque;
use std::marker::Model;
use std::mem;

/// The places of the kept objects, in the order in which they were kept, each once.
#[derive(Drop)]
pub(crate) struct Kept {
    order: VecDeque<u64>,
    places: IndexSet<u64>,
}

impl Model for Kept {
    ghost use Rattle.std.specs.Prelude.{ℕ, List};
    ghost use Rattle.remember_cards.specs.Entries.{AreKept};

    ghost Value = { List ℕ };

    ghost view = { λ k. k.order.items };

    ghost invariant = { λ k. AreKept k.places.keys k.order.items };
}

impl Kept {
    /// Nothing is kept.
    pub(crate) fn new(alloc: Global) -> Kept
        ensures { result ≡ [] }
    {
        Kept {
            order: VecDeque::new(alloc),
            places: IndexSet::new(alloc),
        }
    }

    /// Whether the object at the place is kept.
    pub(crate) fn holds(&self, place: u64) -> bool
        ensures { result ≡ is_in place self.now }
    {
        self.places.contains(&place)
    }

    /// Keeps the object at the place. Without memory nothing changes.
    pub(crate) fn keep(&mut self, place: u64) -> Result<(), AllocError>
        ensures ok { OnOk result (self.new ≡ (if is_in place self.old then self.old else self.old ++ place ∷ [])) }
        ensures err { OnErr result (self.new ≡ self.old) }
    {
        self.order.reserve(1)?;
        if self.places.insert(place)? {
            self.order.push_back_reserved(place);
        }
        Ok(())
    }

    /// Hands the places over to an empty queue, and keeps nothing from then on.
    pub(crate) fn hand_over(&mut self, order: &mut VecDeque<u64>)
        requires { order.old.items ≡ [] }
        ensures order { order.new.items ≡ self.old }
        ensures differ { AreDifferent order.new.items }
        ensures emptied { self.new ≡ [] }
    {
        mem::swap(&mut self.order, order);
        self.places.clear();
    }

    /// Takes the objects at these places off, which are sorted.
    pub(crate) fn drop_dead(&mut self, dead: &[u64])
        requires { IsSorted nat_cmp dead.now }
        ensures { self.new ≡ filter (λ place. not (is_in place dead.now)) self.old }
    {
        self.order.retain(
            |place: &u64| -> bool
                requires { IsSorted nat_cmp dead.now }
                ensures { result ≡ not (is_in place.now dead.entry.now) }
            { !is_dead(dead, *place) },
        );
        self.places.retain(
            |place: &u64| -> bool
                requires { IsSorted nat_cmp dead.now }
                ensures { result ≡ not (is_in place.now dead.entry.now) }
            { !is_dead(dead, *place) },
        );
    }
}

/// Whether the place is among these, which are sorted.
pub(crate) fn is_dead(dead: &[u64], place: u64) -> bool
    requires { IsSorted nat_cmp dead.now }
    ensures { result ≡ is_in place dead.now }
{
    dead.binary_search(&place).is_ok()
}
