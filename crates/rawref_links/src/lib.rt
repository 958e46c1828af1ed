//! The links between C structures and objects of the heap, as in PyPy's rawrefcount. A P link leads from an object to its
//! one structure and back, an O link from a structure to an object alone. A structure's own count is that of C code; while
//! it is linked PyPy's share is added to it. When its object is gone the structure is told so: it is released, waits in the
//! dead queue, or lives on by its own count.
#![tactic(auto)]

ghost use Rattle.std.specs.Prelude.{◌≡◌, ◌≤◌, ◌==◌, ◌++◌, ◌↔◌, [], IsTrue, IsSome, Some, None, IfOk, OnOk, OnErr, IsSomeAnd, option_map, option_and_then, slice_get, if◌then◌else◌};
ghost use Rattle.type_table.specs.Table.{value_at, with_value};
ghost use Rattle.object_model.specs.Sets.{is_in};
ghost use Rattle.store_model.specs.Store.{Linked, Unlinked};
ghost use Rattle.store_model.specs.Structs.{state_of, count_of, object_of, p_link_of, with_struct, raised, lowered, take_dead, forced_objects, with_objects};
ghost use Rattle.store_model.specs.Links.{link_ends, cut_links};
ghost use Rattle.rawref_links.specs.Conditions.{CanRise, CanFall, HasNoLink};
ghost use Rattle.rawref_links.specs.Sound.{AreSound};

mod cut;
mod objects;
mod structure;
mod structures;

use crate::cut::{cut_all, move_all, put_in_order};
use crate::objects::Objects;
use crate::structure::Structure;
use crate::structures::Structures;
use std::alloc::{AllocError, Global};
use std::collections::VecDeque;
use std::marker::Model;
pub use store_model::{Fate, LinkEnd, StructState};

/// What a decrement did.
#[derive(Clone, Copy, Debug, PartialEq, Eq)]
pub enum Dec {
    /// The own count is one less.
    Lowered,
    /// Nothing held the structure any more, and it is gone.
    Deallocated,
}

/// C structures by their numbers, their links with objects, which go by their places, and the queue of the pending ones. A
/// contract sees the structures by rising number, with places for objects, and the queue from its oldest on.
#[derive(Drop)]
pub struct Links {
    alloc: Global,
    structures: Structures,
    objects: Objects,
    dead: VecDeque<u32>,
}

impl Model for Links {
    ghost use Rattle.store_model.specs.Structs.{Structs};
    ghost use Rattle.rawref_links.specs.Ties.{AreTied};

    ghost Value = { Structs };

    ghost view = { λ l. record { structs = l.structures; dead = l.dead.items } };

    ghost invariant = { λ l. AreTied l.structures l.objects l.dead.items };
}

impl Links {
    /// No structure.
    pub fn new(alloc: Global) -> Result<Links, AllocError>
        ensures { IfOk result (λ links. links ≡ record { structs = []; dead = [] }) }
    {
        Ok(Links {
            alloc,
            structures: Structures::new(alloc)?,
            objects: Objects::new(alloc)?,
            dead: VecDeque::new(alloc),
        })
    }

    /// What the structure of the number is. `Absent` exactly where there is none.
    pub fn state(&self, number: u32) -> StructState
        ensures state { result ≡ state_of (value_at self.now.structs number) }
        ensures sound { AreSound self.now }
    {
        match self.structures.get(number) {
            Some(structure) => structure.state(),
            None => StructState::Absent,
        }
    }

    /// Makes a structure under a free number, linked with the object at the place `a` by a P link or an O link, with this
    /// own count. An object has at most one P link, and any number of O links. Without memory nothing changes.
    pub fn link(
        &mut self,
        p: bool,
        light: bool,
        number: u32,
        a: u64,
        own: u64,
    ) -> Result<(), AllocError>
        requires absent { value_at self.old.structs number ≡ None }
        requires fits { own ≤ 4294967295 }
        requires one { IsTrue p → p_link_of self.old.structs a ≡ None }
        ensures ok { OnOk result (self.new ≡ record self.old {
          structs = with_value self.old.structs number (Linked p light a own);
        }) }
        ensures err { OnErr result (self.new ≡ self.old) }
    {
        self.structures
            .add(number, Structure::linked(p, light, a, own as u32))?;
        if let Err(error) = self.objects.add(a, number, p) {
            self.structures.remove(number);
            return Err(error);
        }
        Ok(())
    }

    /// Raises the own count of a structure that is not pending by one.
    pub fn inc(&mut self, number: u32)
        requires { IsSomeAnd (value_at self.old.structs number) CanRise }
        ensures { self.new ≡ record self.old {
          structs = with_struct self.old.structs number (option_map raised (value_at self.old.structs number));
        } }
    {
        let structure = self.structures.get(number).unwrap();
        self.structures.set(number, structure.raised());
    }

    /// Lowers the own count of a structure that is not pending by one. An unlinked structure that nothing else holds is gone
    /// then. A linked one never is, since its object holds it.
    pub fn dec(&mut self, number: u32) -> Dec
        requires { IsSomeAnd (value_at self.old.structs number) CanFall }
        ensures lowered { self.new ≡ record self.old {
          structs = with_struct self.old.structs number (option_and_then lowered (value_at self.old.structs number));
        } }
        ensures deallocated { (result ≡ Dec.Deallocated)
            ↔ (value_at self.old.structs number ≡ Some (Unlinked 1)) }
    {
        let structure = self.structures.get(number).unwrap();
        match structure.lowered() {
            Some(lowered) => {
                self.structures.set(number, lowered);
                Dec::Lowered
            }
            None => {
                self.structures.remove(number);
                Dec::Deallocated
            }
        }
    }

    /// The count of a structure: PyPy's share, 2^61 for a plain link and 2^61 + 2^62 for a light one, and the own count for a
    /// linked one, the own count for an unlinked one, and 1 for a pending one.
    pub fn count(&self, number: u32) -> u64
        requires { IsSome (value_at self.now.structs number) }
        ensures { option_map count_of (value_at self.now.structs number) ≡ Some result }
    {
        self.structures.get(number).unwrap().count()
    }

    /// The structure that has a P link with the object at the place `a`. `None` exactly where none has.
    pub fn from_obj(&self, a: u64) -> Option<u32>
        ensures { result ≡ p_link_of self.now.structs a }
    {
        self.objects.p_link(a)
    }

    /// The place of the object that a structure is linked with, by a P link or an O link. `None` exactly where it is not
    /// linked.
    pub fn to_obj(&self, number: u32) -> Option<u64>
        requires { IsSome (value_at self.now.structs number) }
        ensures { option_map object_of (value_at self.now.structs number) ≡ Some result }
    {
        self.structures.get(number).unwrap().object()
    }

    /// Takes the oldest structure out of the dead queue, and tells its number. From then on its own count of 1 holds it.
    /// `None` exactly where the queue is empty.
    pub fn next_dead(&mut self) -> Option<u32>
        ensures oldest { result ≡ slice_get self.old.dead 0 }
        ensures taken { self.new ≡ take_dead self.old.structs self.old.dead }
    {
        let number = self.dead.pop_front()?;
        self.structures.set(number, Structure::unlinked(1));
        Some(number)
    }

    /// Appends the places of the objects that P links with an own count above 0 keep, by rising number of their structures.
    /// Without memory nothing is appended.
    pub fn forced(&self, places: &mut Vec<u64>) -> Result<(), AllocError>
        ensures ok { OnOk result
            (places.new.items ≡ places.old.items ++ forced_objects self.now.structs) }
        ensures err { OnErr result (places.new.items ≡ places.old.items) }
    {
        let mut numbers = self.structures.forcing(self.alloc)?;
        put_in_order(&mut numbers);
        places.reserve(numbers.len())?;
        self.structures.append_forced(&numbers, places);
        Ok(())
    }

    /// Ends the links with the objects at these places, which are gone, and appends how, by rising number of the structures.
    /// PyPy's share is taken off. A structure whose own count is above 0 is unlinked then. Of the others a light one is
    /// released, and a plain one waits in the dead queue behind those that wait already. Without memory nothing changes.
    pub fn cut_dead(&mut self, dead: &[u64], ends: &mut Vec<LinkEnd>) -> Result<(), AllocError>
        ensures cut { OnOk result (self.new ≡ cut_links (λ object. is_in object dead.now) self.old) }
        ensures ends { OnOk result (ends.new.items
            ≡ ends.old.items ++ link_ends (λ object. is_in object dead.now) self.old.structs) }
        ensures err { OnErr result (self.new ≡ self.old) }
        ensures ends_err { OnErr result (ends.new.items ≡ ends.old.items) }
    {
        let mut numbers = self.objects.numbers_of(dead)?;
        put_in_order(&mut numbers);
        ends.reserve(numbers.len())?;
        self.dead.reserve(numbers.len())?;
        self.objects.forget(dead);
        cut_all(&mut self.structures, &numbers, &mut self.dead, ends);
        Ok(())
    }

    /// Lets the links with the object at the place `from` name the place `to`, to which it moved and which no link names.
    /// Without memory nothing changes.
    pub fn moved(&mut self, from: u64, to: u64) -> Result<(), AllocError>
        requires { HasNoLink self.old.structs to }
        ensures ok { OnOk result (self.new ≡ record self.old {
          structs = with_objects (λ object. if object == from then to else object) self.old.structs;
        }) }
        ensures err { OnErr result (self.new ≡ self.old) }
    {
        self.objects.moved(from, to)?;
        move_all(&mut self.structures, self.objects.numbers(to), to);
        Ok(())
    }
}
