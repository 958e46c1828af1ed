//! The structures by their numbers. Each stands in a slab, and a hash map leads from its number to its key there.

ghost use Rattle.std.specs.Prelude.{◌≡◌, ◌+◌, ◌≤◌, ◌++◌, [], ℕ, None, IsSome, IfOk, OnOk, OnErr, length, filter_map, vec_len, vec_capacity};
ghost use Rattle.type_table.specs.Table.{value_at, with_value, without_key};
ghost use Rattle.object_model.specs.Sets.{is_in};
ghost use Rattle.rawref_links.specs.Structures.{is_forcing, forced_at};

use crate::structure::Structure;
use indexmap::IndexMap;
use slab::Slab;
use std::alloc::{AllocError, Global};
use std::marker::Model;

// The structures for which a new table has room.
const FIRST_ROOM: usize = 8;

/// C structures by their numbers. A contract sees them by rising number.
#[derive(Drop)]
pub(crate) struct Structures {
    keys: IndexMap<u32, usize>,
    slots: Slab<Structure>,
}

impl Model for Structures {
    ghost use Rattle.type_table.specs.Table.{Table};
    ghost use Rattle.store_model.specs.Store.{Struct};
    ghost use Rattle.rawref_links.specs.Structures.{structs_in, AreKeyed};

    ghost Value = { Table Struct };

    ghost view = { λ s. structs_in s.slots.slots s.keys.entries };

    ghost invariant = { λ s. AreKeyed s.slots.slots s.keys.entries };
}

impl Structures {
    /// No structure.
    pub(crate) fn new(alloc: Global) -> Result<Structures, AllocError>
        ensures { IfOk result (λ structures. structures ≡ []) }
    {
        Ok(Structures {
            keys: IndexMap::with_capacity(alloc, FIRST_ROOM)?,
            slots: Slab::with_capacity(alloc, FIRST_ROOM)?,
        })
    }

    /// The structure of the number.
    pub(crate) fn get(&self, number: u32) -> Option<Structure>
        ensures { result ≡ value_at self.now number }
    {
        match self.keys.get(&number) {
            Some(key) => self.slots.get(*key).copied(),
            None => None,
        }
    }

    /// Gives a number that has no structure this one. Without memory nothing changes.
    pub(crate) fn add(&mut self, number: u32, structure: Structure) -> Result<(), AllocError>
        requires { value_at self.old number ≡ None }
        ensures ok { OnOk result (self.new ≡ with_value self.old number structure) }
        ensures err { OnErr result (self.new ≡ self.old) }
    {
        self.slots.reserve(1)?;
        let key = self.slots.vacant_key();
        self.keys.insert(number, key)?;
        self.slots.insert_reserved(structure);
        Ok(())
    }

    /// Puts this structure in the place of the one that the number has.
    pub(crate) fn set(&mut self, number: u32, structure: Structure)
        requires { IsSome (value_at self.old number) }
        ensures { self.new ≡ with_value self.old number structure }
    {
        let key = self.keys[&number];
        self.slots[key] = structure;
    }

    /// Takes off the structure of the number.
    pub(crate) fn remove(&mut self, number: u32)
        requires { IsSome (value_at self.old number) }
        ensures { self.new ≡ without_key self.old number }
    {
        let key = self.keys.swap_remove(&number).unwrap();
        self.slots.remove(key);
    }

    /// The numbers of the structures that keep an object, in no order.
    pub(crate) fn forcing(&self, alloc: Global) -> Result<Vec<u32>, AllocError>
        ensures { IfOk result (λ numbers.
            (number : ℕ) → is_in number numbers.items ≡ is_forcing (value_at self.now number)) }
    {
        let mut numbers = Vec::new(alloc);
        for (number, key) in self.keys.iter() {
            if self.slots[*key].forced_object().is_some() {
                numbers.push(*number)?;
            }
        }
        Ok(numbers)
    }

    /// Appends the objects that these structures keep, in this order. There is room for all of them.
    pub(crate) fn append_forced(&self, numbers: &[u32], places: &mut Vec<u64>)
        requires { vec_len places.old + length numbers.now ≤ vec_capacity places.old }
        ensures { places.new.items ≡ places.old.items ++ filter_map (forced_at self.now) numbers.now }
    {
        for number in numbers {
            if let Some(object) = self.forced(*number) {
                places.push_reserved(object);
            }
        }
    }

    // The object that the structure of the number keeps.
    fn forced(&self, number: u32) -> Option<u64>
        ensures { result ≡ forced_at self.now number }
    {
        match self.get(number) {
            Some(structure) => structure.forced_object(),
            None => None,
        }
    }
}
