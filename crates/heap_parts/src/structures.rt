//! C structures and their links with objects.
ghost use Rattle.std.specs.Prelude.{◌≡◌, ◌≤◌, ◌↔◌, None, Some, IsTrue, IsSome, OnOk, OnErr, IsSomeAnd, option_map, option_and_then, slice_get};
ghost use Rattle.type_table.specs.Table.{value_at, with_value};
ghost use Rattle.store_model.specs.Store.{Linked, Unlinked};
ghost use Rattle.store_model.specs.Structs.{count_of, object_of, p_link_of, with_struct, raised, lowered, take_dead};
ghost use Rattle.rawref_links.specs.Conditions.{CanRise, CanFall};

use crate::parts::Parts;
use rawref_links::Dec;
use std::alloc::AllocError;

impl Parts {
    /// Makes a structure under a free number, linked with the object at a place by a P link or an O link, with this own
    /// count. An object has at most one P link. The error is out of memory, and nothing changes then.
    pub fn make_link(
        &mut self,
        p: bool,
        number: u32,
        place: u64,
        light: bool,
        own: u64,
    ) -> Result<(), AllocError>
        requires absent { value_at self.old.links.structs number ≡ None }
        requires fits { own ≤ 4294967295 }
        requires one { IsTrue p → p_link_of self.old.links.structs place ≡ None }
        ensures ok { OnOk result (self.new ≡ record self.old {
          links = record self.old.links { structs = with_value self.old.links.structs number (Linked p light place own) };
        }) }
        ensures err { OnErr result (self.new ≡ self.old) }
    {
        self.links.link(p, light, number, place, own)
    }

    /// Raises the own count of a structure that is not pending by one.
    pub fn inc(&mut self, number: u32)
        requires { IsSomeAnd (value_at self.old.links.structs number) CanRise }
        ensures { self.new ≡ record self.old {
          links = record self.old.links {
            structs = with_struct self.old.links.structs number (option_map raised (value_at self.old.links.structs number));
          };
        } }
    {
        self.links.inc(number);
    }

    /// Lowers the own count of a structure that is not pending by one. An unlinked structure that nothing else holds is gone
    /// then.
    pub fn dec(&mut self, number: u32) -> Dec
        requires { IsSomeAnd (value_at self.old.links.structs number) CanFall }
        ensures lowered { self.new ≡ record self.old {
          links = record self.old.links {
            structs = with_struct self.old.links.structs number (option_and_then lowered (value_at self.old.links.structs number));
          };
        } }
        ensures deallocated { (result ≡ Dec.Deallocated) ↔ (value_at self.old.links.structs number ≡ Some (Unlinked 1)) }
    {
        self.links.dec(number)
    }

    /// The count of a structure: PyPy's share, if it is linked, and its own count.
    pub fn count(&self, number: u32) -> u64
        requires { IsSome (value_at self.now.links.structs number) }
        ensures { option_map count_of (value_at self.now.links.structs number) ≡ Some result }
    {
        self.links.count(number)
    }

    /// The structure that has a P link with the object at a place, None where none has.
    pub fn p_link(&self, place: u64) -> Option<u32>
        ensures { result ≡ p_link_of self.now.links.structs place }
    {
        self.links.from_obj(place)
    }

    /// The place of the object that a structure is linked with, None where it is not linked.
    pub fn linked_place(&self, number: u32) -> Option<u64>
        requires { IsSome (value_at self.now.links.structs number) }
        ensures { option_map object_of (value_at self.now.links.structs number) ≡ Some result }
    {
        self.links.to_obj(number)
    }

    /// Takes the oldest structure out of the dead queue, and tells its number, None where the queue is empty. From then on
    /// its own count of 1 holds it.
    pub fn next_dead(&mut self) -> Option<u32>
        ensures oldest { result ≡ slice_get self.old.links.dead 0 }
        ensures taken { self.new ≡ record self.old { links = take_dead self.old.links.structs self.old.links.dead } }
    {
        self.links.next_dead()
    }
}
