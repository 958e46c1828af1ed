//! The write barrier and the remembered set. Before references of a settled object are written, a
//! barrier remembers the object for the next minor collection: whole, or, where it is an array with
//! a card table, by the cards that hold the written items. A card is a number of items in a row.
#![tactic(auto)]

ghost use Rattle.std.specs.Prelude.{◌≡◌, ◌+◌, ◌<◌, ◌≤◌, ◌^◌, ℕ, nat_lt, IsTrue, IfOk, IfSome, IfNone, OnOk, OnErr, map, [], IsSorted};
ghost use Rattle.std.specs.Ordering.{nat_cmp};
ghost use Rattle.heap_space.specs.Places.{has, word_at};
ghost use Rattle.object_header.specs.Words.{has_flag};
ghost use Rattle.object_header.specs.declared.flags.Flag.TheVariants.{HasCards};
ghost use Rattle.object_model.specs.Sets.{is_in};
ghost use Rattle.remember_cards.specs.Remembered.{RemembersMore, with_whole, without_dead, has_held_cards, is_held};
ghost use Rattle.remember_cards.specs.Tracking.{IsTracked, with_head, whole_head, items_head};
ghost use Rattle.remember_cards.specs.Remembering.{nothing_remembered, remembered_by, given_whole, given_items, kept_place, without_places};
ghost use Rattle.remember_cards.specs.Drained.{next_span, drained, spans_left, HandsOut};

mod arrays;
mod entries;
mod kept;
mod marks;

use crate::entries::Entries;
use crate::kept::Kept;
use heap_space::Space;
use object_header::{Flag, clear, is_set, set};
use std::alloc::{AllocError, Global};
use std::marker::Model;

/// Items of an object that the collection must look at: those from number `from` on and below `to`,
/// as far as the object has such.
#[derive(Clone, Copy, PartialEq, Eq, Debug)]
pub struct Span {
    /// The place of the object.
    pub a: u64,
    /// The first item.
    pub from: u64,
    /// The item behind the last one, or the greatest word where there is no end.
    pub to: u64,
}

/// What is remembered for the next minor collection, in the order of the first remembering. Beside
/// it stand the objects that are kept for the collection after it.
#[derive(Drop)]
pub struct Remember {
    card: u64,
    entries: Entries,
    kept: Kept,
}

impl Model for Remember {
    ghost use Rattle.std.specs.Prelude.{◌<◌};
    ghost use Rattle.remember_cards.specs.Remembering.{Remembering};

    ghost Value = { Remembering };

    ghost view = { λ r. record { card = r.card; entries = r.entries; kept = r.kept } };

    ghost invariant = { λ r. 0 < r.card };
}

impl Remember {
    /// Nothing is remembered. A card has so many items.
    pub fn new(alloc: Global, card: u64) -> Result<Remember, AllocError>
        requires { 0 < card }
        ensures { IfOk result (λ remember. remember ≡ nothing_remembered card) }
    {
        Ok(Remember {
            card,
            entries: Entries::new(alloc)?,
            kept: Kept::new(alloc),
        })
    }

    /// Remembers the object at the place `a` whole, before any of its references is written. It
    /// keeps its place in the order where cards of it are remembered already. Without memory nothing
    /// changes.
    ///
    /// The flag Track of the object is clear from then on. It and CardsSet tell beforehand and
    /// afterwards what is remembered of the object.
    pub fn barrier(&mut self, space: &mut Space, a: u64) -> Result<(), AllocError>
        requires there { IsTrue (has space.old.blocks a) }
        requires tracked { IsTracked (remembered_by self.old) a (word_at space.old.blocks a) }
        ensures given { OnOk result (self.new ≡ given_whole self.old a) }
        ensures remembered { OnOk result (remembered_by self.new ≡ with_whole (remembered_by self.old) a) }
        ensures more { OnOk result (RemembersMore (remembered_by self.old) (remembered_by self.new) a) }
        ensures head { OnOk result (space.new ≡ with_head space.old a (whole_head (word_at space.old.blocks a))) }
        ensures still_tracked { OnOk result (IsTracked (remembered_by self.new) a (word_at space.new.blocks a)) }
        ensures covered { OnOk result ((i : ℕ) → IsTrue (is_held (remembered_by self.new) a i)) }
        ensures err { OnErr result ((self.new ≡ self.old) × (space.new ≡ space.old)) }
    {
        // Called for its clause that each object has one entry.
        let _ = self.entries.is_empty();
        let head = first_word(space, a);
        if !is_set(head, Flag::Track) {
            return Ok(());
        }
        self.entries.hold_whole(a)?;
        space.write(a, clear(head, Flag::Track));
        Ok(())
    }

    /// Remembers item `i` of the object at the place `a` before it is written: by its card where the
    /// object has the flag HasCards, and else the object whole. Without memory nothing changes.
    ///
    /// Where it is by a card, and the object is not remembered whole, the flag CardsSet of the
    /// object is set from then on. Else Track is clear.
    pub fn barrier_item(&mut self, space: &mut Space, a: u64, i: u64) -> Result<(), AllocError>
        requires there { IsTrue (has space.old.blocks a) }
        requires tracked { IsTracked (remembered_by self.old) a (word_at space.old.blocks a) }
        requires item { i + 1 < 2 ^ 64 }
        ensures given { OnOk result (self.new ≡ given_items (has_flag (word_at space.old.blocks a) HasCards) self.old a i 1) }
        ensures more { OnOk result (RemembersMore (remembered_by self.old) (remembered_by self.new) a) }
        ensures head { OnOk result (space.new ≡ with_head space.old a (items_head (word_at space.old.blocks a) 1)) }
        ensures still_tracked { OnOk result (IsTracked (remembered_by self.new) a (word_at space.new.blocks a)) }
        ensures covered { OnOk result (IsTrue (is_held (remembered_by self.new) a i)) }
        ensures err { OnErr result ((self.new ≡ self.old) × (space.new ≡ space.old)) }
    {
        self.barrier_copy(space, a, i, 1)
    }

    /// Remembers the `n` items from `i` on of the object at the place `a` before they are written:
    /// by the cards that hold them where the object has the flag HasCards, and else the object
    /// whole. Of no item nothing is remembered. Without memory nothing changes.
    ///
    /// The flags of the object change as by `barrier_item`.
    pub fn barrier_copy(
        &mut self,
        space: &mut Space,
        a: u64,
        i: u64,
        n: u64,
    ) -> Result<(), AllocError>
        requires there { IsTrue (has space.old.blocks a) }
        requires tracked { IsTracked (remembered_by self.old) a (word_at space.old.blocks a) }
        requires items { i + n < 2 ^ 64 }
        ensures given { OnOk result (self.new ≡ given_items (has_flag (word_at space.old.blocks a) HasCards) self.old a i n) }
        ensures more { OnOk result (RemembersMore (remembered_by self.old) (remembered_by self.new) a) }
        ensures head { OnOk result (space.new ≡ with_head space.old a (items_head (word_at space.old.blocks a) n)) }
        ensures still_tracked { OnOk result (IsTracked (remembered_by self.new) a (word_at space.new.blocks a)) }
        ensures covered { OnOk result ((j : ℕ) → i ≤ j → j < i + n → IsTrue (is_held (remembered_by self.new) a j)) }
        ensures err { OnErr result ((self.new ≡ self.old) × (space.new ≡ space.old)) }
    {
        let head = first_word(space, a);
        if n == 0 {
            return Ok(());
        }
        if !is_set(head, Flag::HasCards) {
            return self.barrier(space, a);
        }
        if !is_set(head, Flag::Track) {
            return Ok(());
        }
        let first = i / self.card;
        let last = (i + (n - 1)) / self.card;
        self.entries.hold_cards(a, first, last)?;
        space.write(a, set(head, Flag::CardsSet));
        Ok(())
    }

    /// Takes the next span of what is remembered off, in the order of the first remembering: all
    /// items of an object that is remembered whole, else one card, where those that were marked
    /// last come first. No memory.
    ///
    /// `None` exactly where nothing is left. What was kept for pinned objects is then what the next
    /// collection is handed first.
    pub fn drain_next(&mut self) -> Option<Span>
        ensures next { result ≡ next_span self.old.card self.old.entries }
        ensures drained { self.new ≡ drained self.old self.old.entries }
        ensures handed { IfSome result (λ span. HandsOut self.old self.new span) }
        ensures fewer { IfSome result (λ span. spans_left self.new + 1 ≡ spans_left self.old) }
        ensures none { IfNone result (remembered_by self.new ≡ remembered_by self.old) }
    {
        let span = self.entries.take_span(self.card);
        if span.is_none() {
            self.entries.take_over(&mut self.kept);
        }
        span
    }

    /// Keeps the object at the place `a` whole for the next collection, while this one is handed
    /// what is remembered. Once is enough. Without memory nothing changes.
    pub fn keep_for_pinned(&mut self, a: u64) -> Result<(), AllocError>
        ensures kept { OnOk result (self.new ≡ kept_place self.old a) }
        ensures more { OnOk result (RemembersMore (remembered_by self.old) (remembered_by self.new) a) }
        ensures covered { OnOk result ((i : ℕ) → IsTrue (is_held (remembered_by self.new) a i)) }
        ensures err { OnErr result (self.new ≡ self.old) }
    {
        self.kept.keep(a)
    }

    /// Whether the object at the place `a` is kept for the next collection.
    pub fn is_kept(&self, a: u64) -> bool
        ensures { result ≡ is_in a self.now.kept }
    {
        self.kept.holds(a)
    }

    /// Whether some cards of the object at the place `a` are remembered.
    pub fn has_cards(&self, a: u64) -> bool
        ensures { result ≡ has_held_cards (remembered_by self.now) a }
    {
        self.entries.has_cards(a)
    }

    /// Takes the objects at these places off, which are sorted. No memory.
    pub fn drop_dead(&mut self, dead: &[u64])
        requires sorted { IsSorted nat_cmp dead.now }
        ensures dropped { self.new ≡ without_places self.old dead.now }
        ensures remembered { remembered_by self.new ≡ without_dead (λ place. is_in place dead.now) (remembered_by self.old) }
    {
        self.entries.drop_dead(dead);
        self.kept.drop_dead(dead);
    }

    /// Whether an array of so many references has a card table: exactly where it has more than one
    /// card holds.
    pub fn wants_cards(&self, ref_count: u64) -> bool
        ensures { result ≡ nat_lt self.now.card ref_count }
    {
        ref_count > self.card
    }
}

// The first word of the object at the place. A caller also learns that to write it again changes
// nothing.
fn first_word(space: &Space, a: u64) -> u64
    requires { IsTrue (has space.now.blocks a) }
    ensures word { result ≡ word_at space.now.blocks a }
    ensures same { with_head space.now a (word_at space.now.blocks a) ≡ space.now }
{
    // Called for its clause on how the blocks lie.
    let _ = space.arena_words();
    space.read(a)
}
