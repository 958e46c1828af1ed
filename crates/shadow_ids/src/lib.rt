//! Where objects that still lie in the nursery will settle. An object whose identity was asked for
//! has a home reserved outside the nursery, which PyPy calls its shadow. A table outside the heap
//! leads from the object's place to that home.
#![tactic(auto)]

ghost use Rattle.std.specs.Prelude.{◌≡◌, ℕ, None, Some, IfOk, OnOk, OnErr, IfSome, IfNone};
ghost use Rattle.std.specs.Ordering.{nat_cmp};
ghost use Rattle.std.specs.FinMap as map;
ghost use Rattle.std.specs.Coded.{coded_ℕ};
ghost use Rattle.shadow_ids.specs.Hash.{hash_of as hash_number};

use indexmap::IndexMap;
use std::alloc::{AllocError, Global};
use std::marker::Model;

/// How many homes a new table has room for.
const FIRST_ROOM: usize = 16;

/// The reserved homes: a finite map from places of objects to places outside the nursery.
#[derive(Drop)]
pub struct Shadows {
    homes: IndexMap<u64, u64>,
}

impl Model for Shadows {
    ghost Value = { map.FinMap nat_cmp ℕ };

    ghost coded = { map.code coded_ℕ coded_ℕ };

    ghost view = { λ s. map.from_entries s.homes.entries };
}

impl Shadows {
    /// A table in which no object has a home.
    pub fn new(alloc: Global) -> Result<Shadows, AllocError>
        ensures { IfOk result (λ shadows. shadows ≡ map.empty) }
    {
        Ok(Shadows {
            homes: IndexMap::with_capacity(alloc, FIRST_ROOM)?,
        })
    }

    /// Notes the home of the object at the place `a`, which has none yet. Without memory nothing
    /// changes.
    #[tactic(auto, using(crate::proofs::MapLaws::map_steps))]
    pub fn keep_home(&mut self, a: u64, home: u64) -> Result<(), AllocError>
        requires { map.get self.old a ≡ None }
        ensures ok { OnOk result (self.new ≡ map.insert self.old a home) }
        ensures err { OnErr result (self.new ≡ self.old) }
    {
        self.homes.insert(a, home)?;
        Ok(())
    }

    /// The home of the object at the place `a`. `None` exactly where it has none.
    #[tactic(auto, using(crate::proofs::MapLaws::map_steps))]
    pub fn home(&self, a: u64) -> Option<u64>
        ensures { result ≡ map.get self.now a }
    {
        // Where no home is reserved, no hash is made.
        if self.homes.is_empty() {
            return None;
        }
        self.homes.get(&a).copied()
    }

    /// Takes the home of the object at the place `a` off the table. `None` exactly where it has
    /// none, and then nothing changes.
    #[tactic(auto, using(crate::proofs::MapLaws::map_steps))]
    pub fn take_home(&mut self, a: u64) -> Option<u64>
        ensures home { result ≡ map.get self.old a }
        ensures taken { self.new ≡ map.remove self.old a }
        ensures unchanged { IfNone result (self.new ≡ self.old) }
    {
        if self.homes.is_empty() {
            return None;
        }
        self.homes.swap_remove(&a)
    }

    /// Takes the home of some object off the table, and tells its place and its home. `None`
    /// exactly where no object has a home.
    #[tactic(auto, using(crate::proofs::MapLaws::map_steps))]
    pub fn take_any(&mut self) -> Option<(u64, u64)>
        ensures home { IfSome result (λ pair. map.get self.old pair.0 ≡ Some pair.1) }
        ensures taken { IfSome result (λ pair. self.new ≡ map.remove self.old pair.0) }
        ensures none { IfNone result (self.old ≡ map.empty) }
        ensures unchanged { IfNone result (self.new ≡ self.old) }
    {
        self.homes.pop()
    }
}

/// The hash of the object whose home is `i`: PyPy's way to make a hash of an address. Two homes of
/// one hash are one home.
pub fn hash_of(i: u64) -> u64
    ensures { result ≡ hash_number i }
{
    i ^ (i / 16)
}
