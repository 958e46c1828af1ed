//! What is remembered of one array with a card table.

ghost use Rattle.std.specs.Prelude.{◌≡◌, ◌+◌, ◌-◌, ◌≤◌, ◌<◌, ◌^◌, suc, not, true, OnOk, OnErr};
ghost use Rattle.remember_cards.specs.Remembered.{has_any};
ghost use Rattle.remember_cards.specs.Remembering.{cards_from};
ghost use Rattle.remember_cards.specs.Entries.{no_marks, marked_cards, taken_card, left_marks};

use indexmap::IndexSet;
use std::alloc::{AllocError, Global};
use std::marker::Model;

/// The cards of an array that are remembered, and whether all of it is. A contract sees first the
/// card that was marked last.
#[derive(Drop)]
pub(crate) struct ArrayMarks {
    is_whole: bool,
    cards: IndexSet<u64>,
}

impl Model for ArrayMarks {
    ghost use Rattle.std.specs.Prelude.{reverse};
    ghost use Rattle.remember_cards.specs.Entries.{Marks};

    ghost Value = { Marks };

    ghost view = { λ m. record { is_whole = m.is_whole; cards = reverse m.cards.keys } };
}

impl ArrayMarks {
    /// Nothing is remembered.
    pub(crate) fn new(alloc: Global) -> ArrayMarks
        ensures { result ≡ no_marks }
    {
        ArrayMarks {
            is_whole: false,
            cards: IndexSet::new(alloc),
        }
    }

    /// Whether some card is remembered.
    pub(crate) fn has_cards(&self) -> bool
        ensures { result ≡ has_any self.now.cards }
    {
        !self.cards.is_empty()
    }

    /// All of the array is remembered from then on.
    pub(crate) fn set_whole(&mut self)
        ensures { self.new ≡ record self.old { is_whole = true } }
    {
        self.is_whole = true;
    }

    /// Marks the cards from `first` to `last`. Without memory nothing changes.
    pub(crate) fn mark(&mut self, first: u64, last: u64) -> Result<(), AllocError>
        requires order { first ≤ last }
        requires range { last + 1 < 2 ^ 64 }
        ensures ok { OnOk result (self.new ≡ marked_cards self.old (cards_from first (suc (last - first)))) }
        ensures err { OnErr result (self.new ≡ self.old) }
    {
        self.cards.reserve((last - first + 1) as usize)?;
        let mut card = last + 1;
        while card > first {
            card -= 1;
            self.cards.insert(card).unwrap();
        }
        Ok(())
    }

    /// Takes the next card off, and tells whether it was the last one. `None` where all of the array
    /// is remembered, or no card is.
    pub(crate) fn take_card(&mut self) -> Option<(u64, bool)>
        ensures card { result ≡ taken_card self.old }
        ensures left { self.new ≡ left_marks self.old }
    {
        if self.is_whole {
            return None;
        }
        let card = self.cards.pop()?;
        Some((card, self.cards.is_empty()))
    }
}
