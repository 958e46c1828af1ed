//! The write barrier.
ghost use Rattle.std.specs.Prelude.{◌≡◌, OnOk, OnErr};
ghost use Rattle.parts_model.specs.Remembers.{CanRemember, RemembersItems};

use crate::parts::Parts;
use std::alloc::AllocError;

impl Parts {
    /// Remembers so many items of the settled object at a place before they are written: by their cards where the object
    /// keeps cards, and else the object whole. Of no item nothing is remembered. The error is out of memory, and nothing
    /// changes then.
    pub fn remember_items(&mut self, place: u64, item: u64, count: u64) -> Result<(), AllocError>
        requires { CanRemember self.old place item count }
        ensures remembers { OnOk result (RemembersItems self.old self.new place item count) }
        ensures err { OnErr result (self.new ≡ self.old) }
    {
        self.remember
            .barrier_copy(&mut self.space, place, item, count)
    }
}
