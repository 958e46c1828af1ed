//! Births.
ghost use Rattle.std.specs.Prelude.{◌≡◌, ◌≤◌, ℕ, IsTrue, IsFalse, OnOk, OnErr, Err, Some};
ghost use Rattle.type_table.specs.Table.{value_at};
ghost use Rattle.type_table.specs.Words.{words_in};
ghost use Rattle.nursery_gaps.specs.Nursery.{Fits};
ghost use Rattle.object_model.specs.Setup.{young_words};
ghost use Rattle.text_model.specs.declared.command.Command.TheVariants.{NewFixed, NewArray};
ghost use Rattle.heap_parts.specs.Births.{BearsYoung};
ghost use Rattle.heap_core.specs.declared.fault.HeapFault.TheVariants.{Spent};
ghost use Rattle.heap_core.specs.Bearing.{IsFitting, MayAsk, MayBear, BearsKnown};
ghost use Rattle.heap_core.specs.Commands.{AreReady, CanDo, PartsKeep, type_found};
ghost use Rattle.heap_core.specs.Room.{BearsInRoom, EndsBirth};
ghost use Rattle.heap_core.specs.HeapBirths.{AnswersBirth, birth_command};
ghost use Rattle.heap_core.specs.Retained.{BirthRetains};

use crate::collecting::{Collector, make_room};
use crate::collections::lists_of;
use crate::fault::HeapFault;
use crate::heap::{Heap, State};
use heap_parts::Parts;
use std::alloc::AllocError;
use text_model::Line;
use type_table::{Shape, TypeInfo, words};

/// The greatest birth.
pub(crate) const LAST_BIRTH: u64 = (1 << 63) - 2;

impl Heap {
    /// An object of a type that is not weak is born for a slot: an array of `len` items, by `new_array`, where the type is one of
    /// arrays, and else an object of a fixed type, by `new_fixed`, whatever `len` is.
    pub fn new_object(
        &mut self,
        root: u32,
        type_id: u16,
        len: u64,
        out: &mut Vec<Line>,
    ) -> Result<(), HeapFault>
        requires { CanDo self.old (birth_command (type_found self.old.parts type_id) root type_id len) }
        ensures answers { AnswersBirth (birth_command (type_found self.old.parts type_id) root type_id len) self.old self.new out.old.items out.new.items result }
        ensures retained { BirthRetains (birth_command (type_found self.old.parts type_id) root type_id len) self.old self.new out.old.items out.new.items result }
        ensures spent { IsTrue self.old.is_spent → result ≡ Err Spent }
    {
        let Some(info) = self.type_info(type_id) else {
            return self.new_fixed_of(root, type_id, None, out);
        };
        match info.shape {
            Shape::IntArray | Shape::RefArray => {
                self.new_array_of(root, type_id, Some(info), len, out)
            }
            Shape::Fixed { .. } | Shape::Weak => {
                self.new_fixed_of(root, type_id, Some(info), out)
            }
        }
    }

    /// An object of a fixed type is born for a slot, its numbers 0 and its references nil, and its line is appended. An
    /// object of more words than the setting `young` is old from birth (a rule of this project), and so is one for which a
    /// nursery with pinned objects has no room.
    ///
    /// Before the birth a minor collection comes where the nursery has no room for it, with a major step where one is due, and
    /// a whole collection where it would exceed the limit. Their lines are appended too. `HeapLimit` comes where the birth
    /// exceeds the limit also then: their lines stand, and the heap is as they left it. `OutOfMemory` leaves the heap spent where
    /// memory ran out inside a collection, and else as the collections left it.
    pub fn new_fixed(
        &mut self,
        root: u32,
        type_id: u16,
        out: &mut Vec<Line>,
    ) -> Result<(), HeapFault>
        requires { CanDo self.old (NewFixed root type_id) }
        ensures answers { AnswersBirth (NewFixed root type_id) self.old self.new out.old.items out.new.items result }
        ensures retained { BirthRetains (NewFixed root type_id) self.old self.new out.old.items out.new.items result }
        ensures spent { IsTrue self.old.is_spent → result ≡ Err Spent }
    {
        let found = self.type_info(type_id);
        self.new_fixed_of(root, type_id, found, out)
    }

    /// The same where the type was found before, by `type_info`.
    pub fn new_fixed_of(
        &mut self,
        root: u32,
        type_id: u16,
        found: Option<TypeInfo>,
        out: &mut Vec<Line>,
    ) -> Result<(), HeapFault>
        requires can { CanDo self.old (NewFixed root type_id) }
        requires found { found ≡ type_found self.old.parts type_id }
        ensures answers { AnswersBirth (NewFixed root type_id) self.old self.new out.old.items out.new.items result }
        ensures retained { BirthRetains (NewFixed root type_id) self.old self.new out.old.items out.new.items result }
        ensures spent { IsTrue self.old.is_spent → result ≡ Err Spent }
    {
        match &mut self.state {
            State::Started(parts) => {
                let collector = lists_of(parts, &mut self.collector);
                let ended = bear_fixed(parts, collector, root, type_id, found, out);
                self.end_birth(ended)
            }
            State::Closed | State::Spent => Err(HeapFault::Spent),
        }
    }

    /// An array of `len` items is born for a slot, as an object of a fixed type is.
    pub fn new_array(
        &mut self,
        root: u32,
        type_id: u16,
        len: u64,
        out: &mut Vec<Line>,
    ) -> Result<(), HeapFault>
        requires { CanDo self.old (NewArray root type_id len) }
        ensures answers { AnswersBirth (NewArray root type_id len) self.old self.new out.old.items out.new.items result }
        ensures retained { BirthRetains (NewArray root type_id len) self.old self.new out.old.items out.new.items result }
        ensures spent { IsTrue self.old.is_spent → result ≡ Err Spent }
    {
        let found = self.type_info(type_id);
        self.new_array_of(root, type_id, found, len, out)
    }

    /// The same where the type was found before, by `type_info`.
    pub fn new_array_of(
        &mut self,
        root: u32,
        type_id: u16,
        found: Option<TypeInfo>,
        len: u64,
        out: &mut Vec<Line>,
    ) -> Result<(), HeapFault>
        requires can { CanDo self.old (NewArray root type_id len) }
        requires found { found ≡ type_found self.old.parts type_id }
        ensures answers { AnswersBirth (NewArray root type_id len) self.old self.new out.old.items out.new.items result }
        ensures retained { BirthRetains (NewArray root type_id len) self.old self.new out.old.items out.new.items result }
        ensures spent { IsTrue self.old.is_spent → result ≡ Err Spent }
    {
        match &mut self.state {
            State::Started(parts) => {
                let collector = lists_of(parts, &mut self.collector);
                let ended = bear_array(parts, collector, root, type_id, found, len, out);
                self.end_birth(ended)
            }
            State::Closed | State::Spent => Err(HeapFault::Spent),
        }
    }
}

/// Room is made for an object of a fixed type, which is then born for a slot.
fn bear_fixed(
    parts: &mut Parts,
    collector: &mut Collector,
    root: u32,
    type_id: u16,
    found: Option<TypeInfo>,
    out: &mut Vec<Line>,
) -> Result<(), HeapFault>
    requires ready { AreReady parts.old (NewFixed root type_id) }
    requires found { found ≡ value_at parts.old.setup.types type_id }
    ensures { EndsBirth (NewFixed root type_id) parts.old parts.new out.old.items out.new.items result }
{
    bear_in_room(parts, collector, root, type_id, found, 0, out)
}

/// Room is made for an array, which is then born for a slot.
fn bear_array(
    parts: &mut Parts,
    collector: &mut Collector,
    root: u32,
    type_id: u16,
    found: Option<TypeInfo>,
    len: u64,
    out: &mut Vec<Line>,
) -> Result<(), HeapFault>
    requires ready { AreReady parts.old (NewArray root type_id len) }
    requires found { found ≡ value_at parts.old.setup.types type_id }
    ensures { EndsBirth (NewArray root type_id len) parts.old parts.new out.old.items out.new.items result }
{
    bear_in_room(parts, collector, root, type_id, found, len, out)
}

/// Room is made for an object of a type that was found, which is then born for a slot. The lines of both are appended.
fn bear_in_room(
    parts: &mut Parts,
    collector: &mut Collector,
    root: u32,
    type_id: u16,
    found: Option<TypeInfo>,
    items: u64,
    out: &mut Vec<Line>,
) -> Result<(), HeapFault>
    requires may { MayAsk parts.old root type_id items }
    requires found { found ≡ value_at parts.old.setup.types type_id }
    ensures { BearsInRoom root type_id items parts.old parts.new out.old.items out.new.items result }
{
    let Some(info) = found else {
        return Err(HeapFault::OutOfMemory);
    };
    match make_room(parts, collector, words(info, items), out) {
        Ok(()) => {}
        Err(fault) => return Err(fault),
    }
    match bear(parts, root, type_id, info, items, out) {
        Ok(()) => Ok(()),
        Err(_) => Err(HeapFault::OutOfMemory),
    }
}

/// An object of a type is born for a slot, and its line is appended. The error is out of memory, also where the next
/// birth would reach 2^63.
fn bear(
    parts: &mut Parts,
    root: u32,
    type_id: u16,
    info: TypeInfo,
    items: u64,
    out: &mut Vec<Line>,
) -> Result<(), AllocError>
    requires may { MayBear parts.old root type_id items }
    requires known { value_at parts.old.setup.types type_id ≡ Some info }
    ensures bears { OnOk result (BearsKnown parts.old parts.new root type_id items out.old.items out.new.items) }
    ensures err { OnErr result (PartsKeep parts.old parts.new) }
    ensures err_out { OnErr result (out.new.items ≡ out.old.items) }
{
    let birth = parts.next_birth();
    if birth > LAST_BIRTH {
        return Err(AllocError);
    }
    out.reserve(1)?;
    if try_young(parts, root, type_id, info, items) {
        out.push_reserved(Line::Born { birth, old: false });
        return Ok(());
    }
    parts.bear_old(root, type_id, info, items, 0)?;
    out.push_reserved(Line::Born { birth, old: true });
    Ok(())
}

/// An object is born in the nursery, if it is not too large for that, and there is room. Else nothing changes.
fn try_young(parts: &mut Parts, root: u32, type_id: u16, info: TypeInfo, items: u64) -> bool
    requires { IsFitting parts.old root type_id info items }
    ensures bears { IsTrue result → BearsYoung parts.old parts.new root type_id info items 0 }
    ensures small { IsTrue result → words_in info.shape items ≤ young_words parts.old.setup.settings }
    ensures same { IsFalse result → parts.new ≡ parts.old }
    ensures full { IsFalse result → words_in info.shape items ≤ young_words parts.old.setup.settings → (place : ℕ) → ¬ Fits parts.old.nursery (words_in info.shape items) place }
{
    if words(info, items) > parts.young_words() {
        return false;
    }
    parts.bear_young(root, type_id, info, items, 0)
}
