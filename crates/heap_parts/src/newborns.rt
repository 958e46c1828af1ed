//! Births, in the nursery and outside it.
ghost use Rattle.std.specs.Prelude.{◌≡◌, ℕ, ◌≤◌, IsTrue, IsFalse, IfOk, OnOk, OnErr};
ghost use Rattle.type_table.specs.declared.info.Shape.TheVariants.{Weak};
ghost use Rattle.type_table.specs.Words.{words_in};
ghost use Rattle.object_header.specs.Words.{IsHeader};
ghost use Rattle.nursery_gaps.specs.Nursery.{Fits};
ghost use Rattle.old_space.specs.HasBlocks.{Stands};
ghost use Rattle.parts_model.specs.Headers.{keeps_cards as keeps_cards_of};
ghost use Rattle.parts_model.specs.Births.{with_newborn, HasRoom, HasNurseryRoom, BearsYoung, TakesBlock, TakesNone, BearsOld, HasOldRoom, old_header as old_header_of};

use crate::parts::Parts;
use object_header::{Flag, set};
use object_view::{Birth, init};
use std::alloc::AllocError;
use type_table::{Shape, TypeInfo, words};

impl Parts {
    /// A new object at a place where there is room for it, and in a slot. The place of its target is 0 but for a weak object
    /// that has one. It does not allocate.
    fn bear_at(
        &mut self,
        place: u64,
        header: u64,
        root: u32,
        info: TypeInfo,
        items: u64,
        target: u64,
    )
        requires room { HasRoom self.old place root info items }
        requires header { IsHeader header }
        requires target { (info.shape ≡ Weak → ⊥) → target ≡ 0 }
        ensures { self.new ≡ with_newborn self.old place header root info items target }
    {
        let birth = Birth {
            header,
            number: self.next,
            len: items,
            target,
        };
        init(&mut self.space, place, info, birth);
        self.slots[root as usize] = place;
        self.next += 1;
    }

    /// A new object at the lowest place of the nursery that has room for it, and in a slot. False exactly where no place
    /// has, and then nothing changes. It does not allocate.
    pub fn bear_young(
        &mut self,
        root: u32,
        type_id: u16,
        info: TypeInfo,
        items: u64,
        target: u64,
    ) -> bool
        requires room { HasNurseryRoom self.old root info items }
        requires target { (info.shape ≡ Weak → ⊥) → target ≡ 0 }
        ensures bears { IsTrue result → BearsYoung self.old self.new root type_id info items target }
        ensures same { IsFalse result → self.new ≡ self.old }
        ensures full { IsFalse result → (place : ℕ) → ¬ Fits self.old.nursery (words_in info.shape items) place }
    {
        let n = words(info, items);
        let Some(place) = self.nursery.bump(n) else {
            return false;
        };
        self.bear_at(place, u64::from(type_id), root, info, items, target);
        self.unsettled += n;
        true
    }

    /// A block of n words outside the nursery. The error is out of memory, and no object changes then.
    pub fn take_block(&mut self, n: u64) -> Result<u64, AllocError>
        requires stands { Stands self.old.old_blocks self.old.memory }
        requires n { (2 ≤ n) × (n ≤ 16777219) }
        ensures taken { IfOk result (λ place. TakesBlock self.old self.new n place) }
        ensures err { OnErr result (TakesNone self.old self.new) }
    {
        self.old_blocks.take(&mut self.space, n)
    }

    /// A new object in a block of its own words outside the nursery, and in a slot. The error is out of memory, and no
    /// object changes then.
    pub fn bear_old(
        &mut self,
        root: u32,
        type_id: u16,
        info: TypeInfo,
        items: u64,
        target: u64,
    ) -> Result<(), AllocError>
        requires room { HasOldRoom self.old root info items }
        requires target { (info.shape ≡ Weak → ⊥) → target ≡ 0 }
        ensures born { OnOk result (BearsOld self.old self.new root type_id info items target) }
        ensures err { OnErr result (TakesNone self.old self.new) }
    {
        let n = words(info, items);
        let header = old_header(type_id, keeps_cards(self.settings.card, info.shape, items));
        let place = self.take_block(n)?;
        self.bear_at(place, header, root, info, items, target);
        self.old_words += n;
        self.fresh += n;
        Ok(())
    }
}

/// The first word of an object that is born outside the nursery: marking and the write barrier know it from the start.
fn old_header(type_id: u16, cards: bool) -> u64
    ensures value { result ≡ old_header_of type_id cards }
    ensures header { IsHeader result }
{
    let tracked = set(u64::from(type_id), Flag::Track);
    if cards {
        return set(tracked, Flag::HasCards);
    }
    tracked
}

/// Whether an object of so many items keeps cards: an array of more references than a card has.
fn keeps_cards(card: u64, shape: Shape, items: u64) -> bool
    ensures { result ≡ keeps_cards_of card shape items }
{
    match shape {
        Shape::RefArray => items > card,
        Shape::IntArray | Shape::Fixed { .. } | Shape::Weak => false,
    }
}
