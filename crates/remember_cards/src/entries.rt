//! What is still to be handed out, in the order of the first remembering.

ghost use Rattle.std.specs.Prelude.{◌≡◌, ◌+◌, ◌-◌, ◌≤◌, ◌<◌, ◌^◌, suc, false, not, [], map, filter, IfOk, OnOk, OnErr, IsSorted};
ghost use Rattle.std.specs.Ordering.{nat_cmp};
ghost use Rattle.object_model.specs.Sets.{is_in};
ghost use Rattle.remember_cards.specs.Remembered.{held_whole, hold_whole, hold_cards, is_whole_among, has_cards_among};
ghost use Rattle.remember_cards.specs.Entries.{AreOrderly, is_more_left};
ghost use Rattle.remember_cards.specs.Remembering.{cards_from};
ghost use Rattle.remember_cards.specs.Drained.{next_span, left_of, span_of_taken};

use crate::Span;
use crate::arrays::Arrays;
use crate::kept::{Kept, is_dead};
use std::alloc::{AllocError, Global};
use std::collections::VecDeque;
use std::marker::Model;

/// The objects that are remembered: the place of each in the order, and the marks of those of which
/// cards are. One without marks is remembered whole.
#[derive(Drop)]
pub(crate) struct Entries {
    order: VecDeque<u64>,
    arrays: Arrays,
}

impl Model for Entries {
    ghost use Rattle.std.specs.Prelude.{List};
    ghost use Rattle.remember_cards.specs.Remembered.{Held};
    ghost use Rattle.remember_cards.specs.Entries.{entries_of, marks_in, AreListed};

    ghost Value = { List Held };

    ghost view = { λ e. entries_of (marks_in e.arrays) e.order.items };

    ghost invariant = { λ e. AreListed (marks_in e.arrays) e.order.items };
}

impl Entries {
    /// Nothing is remembered.
    pub(crate) fn new(alloc: Global) -> Result<Entries, AllocError>
        ensures { IfOk result (λ entries. entries ≡ []) }
    {
        Ok(Entries {
            order: VecDeque::new(alloc),
            arrays: Arrays::new(alloc)?,
        })
    }

    /// Whether nothing is remembered. A caller also learns that no object has two entries, and that
    /// each is remembered whole or has cards.
    pub(crate) fn is_empty(&self) -> bool
        ensures orderly { AreOrderly self.now }
    {
        self.order.is_empty()
    }

    /// Whether cards of the object at the place are remembered.
    pub(crate) fn has_cards(&self, place: u64) -> bool
        ensures { result ≡ has_cards_among self.now place }
    {
        self.arrays.has_cards(place)
    }

    /// Remembers the object at the place whole, which is not so yet. Without memory nothing changes.
    pub(crate) fn hold_whole(&mut self, place: u64) -> Result<(), AllocError>
        requires { is_whole_among self.old place ≡ false }
        ensures ok { OnOk result (self.new ≡ hold_whole self.old place) }
        ensures err { OnErr result (self.new ≡ self.old) }
    {
        if self.arrays.set_whole(place) {
            return Ok(());
        }
        self.order.push_back(place)?;
        Ok(())
    }

    /// Remembers the cards from `first` to `last` of the object at the place, which is not remembered
    /// whole. Without memory nothing changes.
    pub(crate) fn hold_cards(&mut self, place: u64, first: u64, last: u64) -> Result<(), AllocError>
        requires not_whole { is_whole_among self.old place ≡ false }
        requires order { first ≤ last }
        requires range { last + 1 < 2 ^ 64 }
        ensures ok { OnOk result (self.new ≡ hold_cards self.old place (cards_from first (suc (last - first)))) }
        ensures err { OnErr result (self.new ≡ self.old) }
    {
        self.order.reserve(1)?;
        if self.arrays.mark(place, first, last)? {
            self.order.push_back_reserved(place);
        }
        Ok(())
    }

    /// Takes the next span off, where a card has so many items. `None` exactly where nothing is left.
    /// A caller also learns what `is_empty` tells.
    pub(crate) fn take_span(&mut self, card: u64) -> Option<Span>
        ensures next { result ≡ next_span card self.old }
        ensures left { self.new ≡ left_of self.old }
        ensures orderly { AreOrderly self.old }
    {
        let place = *self.order.front()?;
        let taken = self.arrays.take_card(place);
        let span = span_taken(place, card, taken);
        if is_more(taken) {
            return Some(span);
        }
        self.order.pop_front();
        self.arrays.remove(place);
        Some(span)
    }

    /// Where nothing is left, the kept objects are remembered whole from then on.
    pub(crate) fn take_over(&mut self, kept: &mut Kept)
        requires { self.old ≡ [] }
        ensures taken { self.new ≡ map held_whole kept.old }
        ensures emptied { kept.new ≡ [] }
    {
        kept.hand_over(&mut self.order);
    }

    /// Takes the objects at these places off, which are sorted.
    pub(crate) fn drop_dead(&mut self, dead: &[u64])
        requires { IsSorted nat_cmp dead.now }
        ensures { self.new ≡ filter (λ held. not (is_in held.place dead.now)) self.old }
    {
        self.order.retain(
            |place: &u64| -> bool
                requires { IsSorted nat_cmp dead.now }
                ensures { result ≡ not (is_in place.now dead.entry.now) }
            { !is_dead(dead, *place) },
        );
        self.arrays.forget(dead);
    }
}

// Whether a card was taken that was not the last one.
fn is_more(taken: Option<(u64, bool)>) -> bool
    ensures { result ≡ is_more_left taken }
{
    match taken {
        Some((_, is_last)) => !is_last,
        None => false,
    }
}

// What is handed out of the object at the place: all items, or those of the card that was taken.
fn span_taken(place: u64, card: u64, taken: Option<(u64, bool)>) -> Span
    ensures { result ≡ span_of_taken card place taken }
{
    match taken {
        None => Span {
            a: place,
            from: 0,
            to: u64::MAX,
        },
        Some((number, _)) => {
            let from = card.saturating_mul(number);
            Span {
                a: place,
                from,
                to: from.saturating_add(card),
            }
        }
    }
}
