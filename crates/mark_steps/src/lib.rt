//! Marking in steps, as in PyPy's incremental collector. The places of objects that marking has met
//! and not yet visited wait in a gray list, first in, first out.
#![tactic(auto)]

ghost use Rattle.std.specs.Prelude.{◌≡◌, ◌++◌, ◌∷◌, ◌<◌, ℕ, List, [], IfOk, OnOk, OnErr};
ghost use Rattle.mark_steps.specs.Visits.{CanVisit};
ghost use Rattle.mark_steps.specs.Ends.{Marks, StartsWith};

mod marking;

use crate::marking::visit_all;
use heap_space::Space;
use nursery_gaps::Nursery;
use std::alloc::{AllocError, Global};
use std::collections::VecDeque;
use std::marker::Model;
use type_table::TypeTable;

/// How many places a new list has room for.
const FIRST_ROOM: usize = 16;

/// How a step of marking ends.
#[derive(Clone, Copy, PartialEq, Eq, Debug)]
pub enum MarkEnd {
    /// The words of the visited objects reached the budget with the last of them.
    Budget,
    /// No place is left, and the visited objects have so many words, fewer than the budget.
    Empty { words: u64 },
}

/// The places that marking has met and not yet visited. A contract sees them as a list, the oldest
/// first.
#[derive(Drop)]
pub struct Gray {
    places: VecDeque<u64>,
}

impl Model for Gray {
    ghost use Rattle.std.specs.Prelude.{ℕ, List};

    ghost Value = { List ℕ };

    ghost view = { λ g. g.places.items };
}

impl Gray {
    /// No place.
    pub fn new(alloc: Global) -> Result<Gray, AllocError>
        ensures { IfOk result (λ gray. gray ≡ []) }
    {
        Ok(Gray {
            places: VecDeque::with_capacity(alloc, FIRST_ROOM)?,
        })
    }

    /// Queues the place `a` behind all others. Without memory nothing changes.
    pub fn push(&mut self, a: u64) -> Result<(), AllocError>
        ensures ok { OnOk result (self.new ≡ self.old ++ a ∷ []) }
        ensures err { OnErr result (self.new ≡ self.old) }
    {
        self.places.push_back(a)?;
        Ok(())
    }
    /// Visits the objects whose places wait, first in, first out, and appends their births to
    /// `visited` in that order. A visit sets the flag Visited in the object's first word, and
    /// queues the places outside the nursery that it refers to, in item order. What carries the
    /// flag, and what the nursery holds, is passed over. It stops as soon as the words of the
    /// objects visited in this call reach the budget. In the space nothing but the flag changes.
    /// (The flag and the budget are PyPy's, where what was met last is visited first; this order
    /// is this project's own.)
    ///
    /// Without memory the list and the space are spent, and `visited` still begins with what it
    /// held.
    pub fn mark(
        &mut self,
        space: &mut Space,
        types: &TypeTable,
        nursery: &Nursery,
        budget: u64,
        visited: &mut Vec<u64>,
    ) -> Result<MarkEnd, AllocError>
        requires budget { 0 < budget }
        requires sound { (places : List ℕ)
            × CanVisit types.now nursery.now.words space.old self.old places }
        ensures ok { IfOk result (Marks types.now nursery.now.words budget
            space.old self.old visited.old.items space.new self.new visited.new.items) }
        ensures front { StartsWith visited.new.items visited.old.items }
    {
        visit_all(&mut self.places, space, types, nursery, budget, visited)
    }
}
