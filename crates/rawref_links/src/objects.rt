//! The links of each object, found by the place at which it lies.

ghost use Rattle.std.specs.Prelude.{◌≡◌, [], ℕ, None, Some, IfOk, OnOk, OnErr, if◌then◌else◌};
ghost use Rattle.type_table.specs.Table.{value_at, with_value, without_key};
ghost use Rattle.rawref_links.specs.Objects.{no_links, links_at, with_link, moved_to, is_at_one};
ghost use Rattle.object_model.specs.Sets.{is_in};

use indexmap::IndexMap;
use std::alloc::{AllocError, Global};
use std::marker::Model;

// The objects for which a new table has room.
const FIRST_ROOM: usize = 8;

/// The structures that are linked with one object.
#[derive(Drop)]
pub(crate) struct ObjectLinks {
    p_link: Option<u32>,
    numbers: Vec<u32>,
}

impl Model for ObjectLinks {
    ghost use Rattle.rawref_links.specs.Objects.{LinksOf};

    ghost Value = { LinksOf };

    ghost view = { λ l. record { p_link = l.p_link; numbers = l.numbers.items } };
}

impl ObjectLinks {
    // No structure.
    fn new(alloc: Global) -> ObjectLinks
        ensures { result ≡ no_links }
    {
        ObjectLinks {
            p_link: None,
            numbers: Vec::new(alloc),
        }
    }

    // Adds a structure, with a P link or an O link. Without memory nothing changes.
    fn push(&mut self, number: u32, p: bool) -> Result<(), AllocError>
        ensures ok { OnOk result (self.new ≡ with_link self.old number p) }
        ensures err { OnErr result (self.new ≡ self.old) }
    {
        self.numbers.push(number)?;
        if p {
            self.p_link = Some(number);
        }
        Ok(())
    }
}

/// The links of each object, by its place. An object without links has no entry.
#[derive(Drop)]
pub(crate) struct Objects {
    alloc: Global,
    links: IndexMap<u64, ObjectLinks>,
}

impl Model for Objects {
    ghost use Rattle.type_table.specs.Table.{Table};
    ghost use Rattle.rawref_links.specs.Objects.{LinksOf, tabled};

    ghost Value = { Table LinksOf };

    ghost view = { λ o. tabled o.links.entries };
}

impl Objects {
    /// No object has a link.
    pub(crate) fn new(alloc: Global) -> Result<Objects, AllocError>
        ensures { IfOk result (λ objects. objects ≡ []) }
    {
        Ok(Objects {
            alloc,
            links: IndexMap::with_capacity(alloc, FIRST_ROOM)?,
        })
    }

    /// The structure that has a P link with the object at the place.
    pub(crate) fn p_link(&self, place: u64) -> Option<u32>
        ensures { result ≡ (links_at self.now place).p_link }
    {
        match self.links.get(&place) {
            Some(links) => links.p_link,
            None => None,
        }
    }

    /// The structures that are linked with the object at the place.
    pub(crate) fn numbers(&self, place: u64) -> &[u32]
        ensures { result.now ≡ (links_at self.now place).numbers }
    {
        // Where nothing is linked, no hash is made.
        if self.links.is_empty() {
            return &[];
        }
        match self.links.get(&place) {
            Some(links) => links.numbers.as_slice(),
            None => &[],
        }
    }

    /// Adds a link with the object at the place. Without memory nothing changes.
    pub(crate) fn add(&mut self, place: u64, number: u32, p: bool) -> Result<(), AllocError>
        ensures ok { OnOk result
            (self.new ≡ with_value self.old place (with_link (links_at self.old place) number p)) }
        ensures err { OnErr result (self.new ≡ self.old) }
    {
        if let Some(links) = self.links.get_mut(&place) {
            return links.push(number, p);
        }
        let mut links = ObjectLinks::new(self.alloc);
        links.push(number, p)?;
        self.links.insert(place, links)?;
        Ok(())
    }

    /// The structures that are linked with objects at these places, in no order and maybe more than once.
    pub(crate) fn numbers_of(&self, places: &[u64]) -> Result<Vec<u32>, AllocError>
        ensures { IfOk result (λ numbers.
            (number : ℕ) → is_in number numbers.items ≡ is_at_one number self.now places.now) }
    {
        let mut numbers = Vec::new(self.alloc);
        for place in places {
            numbers.extend_from_slice(self.numbers(*place))?;
        }
        Ok(numbers)
    }

    /// Takes the links of the objects at these places off the table.
    pub(crate) fn forget(&mut self, places: &[u64])
        ensures { (place : ℕ) → links_at self.new place
            ≡ (if is_in place places.now then no_links else links_at self.old place) }
    {
        for place in places {
            self.remove(*place);
        }
    }

    // Takes the links of the object at the place off the table.
    fn remove(&mut self, place: u64)
        ensures { self.new ≡ without_key self.old place }
    {
        if self.links.is_empty() {
            return;
        }
        self.links.swap_remove(&place);
    }

    /// Finds the links of the object at the place `from` at `to` from now on. Without memory nothing changes.
    pub(crate) fn moved(&mut self, from: u64, to: u64) -> Result<(), AllocError>
        ensures ok { OnOk result (self.new ≡ moved_to self.old from to (value_at self.old from)) }
        ensures err { OnErr result (self.new ≡ self.old) }
    {
        if self.links.is_empty() {
            return Ok(());
        }
        if !self.links.contains_key(&from) {
            return Ok(());
        }
        self.links.reserve(1)?;
        let links = self.links.swap_remove(&from).unwrap();
        self.links.insert(to, links).unwrap();
        Ok(())
    }
}
