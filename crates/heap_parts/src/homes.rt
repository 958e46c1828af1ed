//! Homes that are reserved for objects of the nursery.
ghost use Rattle.std.specs.Prelude.{◌≡◌, IfOk, OnErr};
ghost use Rattle.parts_model.specs.Parts.{home_in};
ghost use Rattle.parts_model.specs.Births.{TakesNone};
ghost use Rattle.parts_model.specs.Homes.{CanReserve, ReservesHome};

use crate::parts::Parts;
use object_header::{Flag, set};
use object_view::view;
use std::alloc::AllocError;

impl Parts {
    /// The home that is reserved for the object at a place, if one is.
    pub fn home(&self, place: u64) -> Option<u64>
        ensures { result ≡ home_in self.now place }
    {
        self.shadows.home(place)
    }

    /// Reserves a home for an object of the nursery that has none. The error is want of memory, and no object changes then.
    pub fn reserve_home(&mut self, place: u64) -> Result<u64, AllocError>
        requires { CanReserve self.old place }
        ensures reserves { IfOk result (λ home. ReservesHome self.old self.new place home) }
        ensures err { OnErr result (TakesNone self.old self.new) }
    {
        let word = self.space.read(place);
        let n = view(&self.space, &self.types, place).words;
        let home = self.take_block(n)?;
        if self.shadows.keep_home(place, home).is_err() {
            self.old_blocks.give_back(&mut self.space, home, n);
            return Err(AllocError);
        }
        self.space.write(home, set(0, Flag::Shadow));
        self.space.write(place, set(word, Flag::HasShadow));
        Ok(home)
    }
}
