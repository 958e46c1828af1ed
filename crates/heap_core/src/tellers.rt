//! What a heap tells, by which a caller knows beforehand what it refuses.
ghost use Rattle.std.specs.Prelude.{◌≡◌, IsSome, IsSomeAnd, is_some, option_map};
ghost use Rattle.store_model.specs.Store.{Store};
ghost use Rattle.store_model.specs.Slots.{object_in};
ghost use Rattle.store_model.specs.Look.{look};
ghost use Rattle.heap_parts.specs.Told.{items_of};
ghost use Rattle.heap_core.specs.Heap.{StandsFor};
ghost use Rattle.heap_core.specs.Commands.{IsStanding, type_found, told_by};
ghost use Rattle.heap_core.specs.Found.{kind_of, found_in};
ghost use Rattle.heap_core.specs.Words.{word_if, word_told};

use crate::found::{Found, find};
use crate::heap::{Heap, State};
use heap_space::Space;
use object_model::{Kind, StructState};
use type_table::{Shape, TypeInfo};

impl Heap {
    /// The type of an id, None where the heap was not started or the id has none.
    pub fn type_info(&self, id: u16) -> Option<TypeInfo>
        ensures { result ≡ type_found self.now.parts id }
    {
        match &self.state {
            State::Started(parts) => parts.type_info(id),
            State::Closed | State::Spent => None,
        }
    }

    /// What is seen of the object in a slot, None where the slot is empty or not there. `put_found` and the like take it, so that
    /// one look serves to know what is refused, and to do what is not.
    pub fn found(&self, root: u32) -> Option<Found>
        requires { IsStanding self.now }
        ensures value { result ≡ found_in self.now root }
        ensures kind { option_map kind_of result ≡ (told_by self.now).kind root }
    {
        match &self.state {
            State::Started(parts) => find(parts, root),
            State::Closed | State::Spent => None,
        }
    }

    /// The shape of the object in a slot and its numbers of items, None where the slot is empty or not there.
    pub fn kind_in(&self, root: u32) -> Option<Kind>
        requires { IsStanding self.now }
        ensures value { result ≡ (told_by self.now).kind root }
        ensures look { (store : Store) → StandsFor self.now store → look store ≡ told_by self.now }
    {
        match &self.state {
            State::Started(parts) => parts.kind(root),
            State::Closed | State::Spent => None,
        }
    }

    /// Whether a slot holds an object.
    pub fn root_is(&self, root: u32) -> bool
        requires { IsStanding self.now }
        ensures { result ≡ is_some ((told_by self.now).kind root) }
    {
        match &self.state {
            State::Started(parts) => parts.place(root) != 0,
            State::Closed | State::Spent => false,
        }
    }

    /// The shape of the object in a slot.
    pub fn kind_at(&self, root: u32) -> Shape
        requires standing { IsStanding self.now }
        requires full { IsSome ((told_by self.now).kind root) }
        ensures { IsSomeAnd ((told_by self.now).kind root) (λ kind. result ≡ kind.shape) }
    {
        self.kind_in(root).unwrap().shape
    }

    /// The items of the array in a slot, and 0 for an object of another shape.
    pub fn len_of(&self, root: u32) -> u64
        requires standing { IsStanding self.now }
        requires full { IsSome ((told_by self.now).kind root) }
        ensures { IsSomeAnd ((told_by self.now).kind root) (λ kind. result ≡ items_of kind) }
    {
        let kind = self.kind_in(root).unwrap();
        match kind.shape {
            Shape::IntArray => kind.ints,
            Shape::RefArray => kind.refs,
            Shape::Fixed { .. } | Shape::Weak => 0,
        }
    }

    /// The word at a place, of whatever use: None where no block of the heap has the place, or where the heap was not started. It
    /// lets a test or a debugger walk the objects as they lie.
    pub fn word(&self, place: u64) -> Option<u64>
        ensures { result ≡ word_told self.now place }
    {
        match &self.state {
            State::Started(parts) => word_at(&parts.space, place),
            State::Closed | State::Spent => None,
        }
    }

    /// The type id of the object in a slot.
    pub fn type_of(&self, root: u32) -> u16
        requires standing { IsStanding self.now }
        requires full { IsSome ((told_by self.now).kind root) }
        ensures { (store : Store) → StandsFor self.now store → IsSomeAnd (object_in store.slots store.kept root) (λ object. result ≡ object.type_id) }
    {
        match &self.state {
            State::Started(parts) => parts.type_of(root),
            State::Closed | State::Spent => 0,
        }
    }

    /// Whether a slot holds a pinned object.
    pub fn is_pinned(&self, root: u32) -> bool
        requires { IsStanding self.now }
        ensures { result ≡ (told_by self.now).is_pinned root }
    {
        match &self.state {
            State::Started(parts) => parts.is_pinned(root),
            State::Closed | State::Spent => false,
        }
    }

    /// Whether a slot holds an object that is registered, chosen or queued.
    pub fn was_registered(&self, root: u32) -> bool
        requires { IsStanding self.now }
        ensures { result ≡ (told_by self.now).was_registered root }
    {
        match &self.state {
            State::Started(parts) => parts.was_registered(root),
            State::Closed | State::Spent => false,
        }
    }

    /// Whether a slot holds an object with a P link.
    pub fn has_p_link(&self, root: u32) -> bool
        requires { IsStanding self.now }
        ensures { result ≡ (told_by self.now).has_p_link root }
    {
        match &self.state {
            State::Started(parts) => parts.has_p_link(root),
            State::Closed | State::Spent => false,
        }
    }

    /// The state of the structure of a number.
    pub fn struct_state(&self, number: u32) -> StructState
        requires { IsStanding self.now }
        ensures { result ≡ (told_by self.now).structure number }
    {
        match &self.state {
            State::Started(parts) => parts.struct_state(number),
            State::Closed | State::Spent => StructState::Absent,
        }
    }
}

/// The word at a place of a space, None where no block has the place.
fn word_at(space: &Space, place: u64) -> Option<u64>
    ensures { result ≡ word_if space.now place }
{
    if space.has(place) {
        return Some(space.read(place));
    }
    None
}
