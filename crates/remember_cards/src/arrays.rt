//! The marks of arrays, found by the places at which they lie.

ghost use Rattle.std.specs.Prelude.{◌≡◌, ◌+◌, ◌-◌, ◌≤◌, ◌<◌, ◌^◌, ℕ, suc, not, [], None, Some, is_some, IfOk, OnOk, OnErr, if◌then◌else◌};
ghost use Rattle.std.specs.Option.{option_map, option_and_then};
ghost use Rattle.object_model.specs.Sets.{is_in};
ghost use Rattle.remember_cards.specs.Remembered.{has_any};
ghost use Rattle.remember_cards.specs.Remembering.{cards_from};
ghost use Rattle.remember_cards.specs.Entries.{marks_in, with_marks, marked_whole, marks_or_none, marked_cards, taken_card, left_marks};

use crate::marks::ArrayMarks;
use indexmap::IndexMap;
use std::alloc::{AllocError, Global};
use std::marker::Model;

// The arrays for which a new table has room.
const FIRST_ROOM: usize = 8;

/// The marks of each array of which cards are remembered, by its place.
#[derive(Drop)]
pub(crate) struct Arrays {
    alloc: Global,
    marks: IndexMap<u64, ArrayMarks>,
}

impl Model for Arrays {
    ghost use Rattle.std.specs.Prelude.{ℕ, List};
    ghost use Rattle.remember_cards.specs.Entries.{Marks};

    ghost Value = { List (ℕ × Marks) };

    ghost view = { λ a. a.marks.entries };
}

impl Arrays {
    /// No array has marks.
    pub(crate) fn new(alloc: Global) -> Result<Arrays, AllocError>
        ensures { IfOk result (λ arrays. arrays ≡ []) }
    {
        Ok(Arrays {
            alloc,
            marks: IndexMap::with_capacity(alloc, FIRST_ROOM)?,
        })
    }

    /// Whether some card of the array at the place is remembered.
    pub(crate) fn has_cards(&self, place: u64) -> bool
        ensures { result ≡ has_any (marks_or_none (marks_in self.now place)).cards }
    {
        match self.marks.get(&place) {
            Some(marks) => marks.has_cards(),
            None => false,
        }
    }

    /// All of the array at the place is remembered from then on. `false` where it has no marks, and
    /// then nothing changes.
    pub(crate) fn set_whole(&mut self, place: u64) -> bool
        ensures found { result ≡ is_some (marks_in self.old place) }
        ensures whole { marks_in self.new
            ≡ with_marks (marks_in self.old) place (marked_whole (marks_in self.old place)) }
    {
        if let Some(marks) = self.marks.get_mut(&place) {
            marks.set_whole();
            return true;
        }
        false
    }

    /// Marks the cards from `first` to `last` of the array at the place, and tells whether it had no
    /// marks before. Without memory nothing changes.
    pub(crate) fn mark(&mut self, place: u64, first: u64, last: u64) -> Result<bool, AllocError>
        requires order { first ≤ last }
        requires range { last + 1 < 2 ^ 64 }
        ensures new { IfOk result (λ is_new. is_new ≡ not (is_some (marks_in self.old place))) }
        ensures ok { OnOk result (marks_in self.new
            ≡ with_marks (marks_in self.old) place
            (Some (marked_cards (marks_or_none (marks_in self.old place)) (cards_from first (suc (last - first)))))) }
        ensures err { OnErr result (marks_in self.new ≡ marks_in self.old) }
    {
        if let Some(marks) = self.marks.get_mut(&place) {
            marks.mark(first, last)?;
            return Ok(false);
        }
        let mut marks = ArrayMarks::new(self.alloc);
        marks.mark(first, last)?;
        self.marks.insert(place, marks)?;
        Ok(true)
    }

    /// Takes the next card of the array at the place off, and tells whether it was the last one.
    /// `None` where the array has no marks, or all of it is remembered.
    pub(crate) fn take_card(&mut self, place: u64) -> Option<(u64, bool)>
        ensures card { result ≡ option_and_then taken_card (marks_in self.old place) }
        ensures left { marks_in self.new
            ≡ with_marks (marks_in self.old) place (option_map left_marks (marks_in self.old place)) }
    {
        match self.marks.get_mut(&place) {
            Some(marks) => marks.take_card(),
            None => None,
        }
    }

    /// Takes the marks of the array at the place off.
    pub(crate) fn remove(&mut self, place: u64)
        ensures { marks_in self.new ≡ with_marks (marks_in self.old) place None }
    {
        self.marks.swap_remove(&place);
    }

    /// Takes the marks of the arrays at these places off.
    pub(crate) fn forget(&mut self, places: &[u64])
        ensures { (place : ℕ) → marks_in self.new place
            ≡ (if is_in place places.now then None else marks_in self.old place) }
    {
        for place in places {
            self.remove(*place);
        }
    }
}
