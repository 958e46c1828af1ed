//! Weak objects.
ghost use Rattle.std.specs.Prelude.{◌≡◌, [], ◌∷◌, IsTrue, IfOk, OnOk, OnErr, Err, Some};
ghost use Rattle.type_table.specs.Table.{value_at};
ghost use Rattle.text_model.specs.declared.command.Command.TheVariants.{NewWeak, Deref};
ghost use Rattle.text_model.specs.declared.line.Line.TheVariants.{Derefed};
ghost use Rattle.heap_core.specs.declared.fault.HeapFault.TheVariants.{Spent};
ghost use Rattle.heap_core.specs.Bearing.{MayBearWeak, BearsWeakKnown};
ghost use Rattle.heap_core.specs.Commands.{AreReady, CanDo, PartsDo, PartsKeep, Performs, type_found};
ghost use Rattle.heap_core.specs.Found.{found_of, found_in};
ghost use Rattle.heap_core.specs.Room.{EndsBirth};
ghost use Rattle.heap_core.specs.HeapBirths.{AnswersBirth};
ghost use Rattle.heap_core.specs.Retained.{BirthRetains};

use crate::births::LAST_BIRTH;
use crate::collecting::{Collector, make_room};
use crate::collections::lists_of;
use crate::fault::HeapFault;
use crate::found::{Found, find, read_target};
use crate::heap::{Heap, State};
use heap_parts::Parts;
use std::alloc::AllocError;
use text_model::Line;
use type_table::{TypeInfo, words};

impl Heap {
    /// A weak object is born for a slot, and its line is appended. Its target is what another slot holds, which it does not
    /// keep. It is young, but where a nursery with pinned objects has no room for it. Collections come before, and errors are, as
    /// for an object of a fixed type.
    pub fn new_weak(
        &mut self,
        root: u32,
        type_id: u16,
        target: u32,
        out: &mut Vec<Line>,
    ) -> Result<(), HeapFault>
        requires { CanDo self.old (NewWeak root type_id target) }
        ensures answers { AnswersBirth (NewWeak root type_id target) self.old self.new out.old.items out.new.items result }
        ensures retained { BirthRetains (NewWeak root type_id target) self.old self.new out.old.items out.new.items result }
        ensures spent { IsTrue self.old.is_spent → result ≡ Err Spent }
    {
        let found = self.type_info(type_id);
        self.new_weak_of(root, type_id, found, target, out)
    }

    /// The same where the type was found before, by `type_info`.
    pub fn new_weak_of(
        &mut self,
        root: u32,
        type_id: u16,
        found: Option<TypeInfo>,
        target: u32,
        out: &mut Vec<Line>,
    ) -> Result<(), HeapFault>
        requires can { CanDo self.old (NewWeak root type_id target) }
        requires found { found ≡ type_found self.old.parts type_id }
        ensures answers { AnswersBirth (NewWeak root type_id target) self.old self.new out.old.items out.new.items result }
        ensures retained { BirthRetains (NewWeak root type_id target) self.old self.new out.old.items out.new.items result }
        ensures spent { IsTrue self.old.is_spent → result ≡ Err Spent }
    {
        match &mut self.state {
            State::Started(parts) => {
                let collector = lists_of(parts, &mut self.collector);
                let ended = bear_weak(parts, collector, root, type_id, found, target, out);
                self.end_birth(ended)
            }
            State::Closed | State::Spent => Err(HeapFault::Spent),
        }
    }

    /// Puts the target of the weak object in a slot into a slot, and answers its birth, None where there is none. The target
    /// is revived: it and all that it leads to stay, also where marking runs.
    pub fn deref(&mut self, to: u32, root: u32) -> Result<Option<u64>, HeapFault>
        requires { CanDo self.old (Deref to root) }
        ensures performs { IfOk result (λ birth. Performs self.old self.new (Deref to root) [] (Derefed birth ∷ [])) }
        ensures spent { IsTrue self.old.is_spent → result ≡ Err Spent }
        ensures cause { OnErr result (IsTrue self.old.is_spent) }
        ensures err { OnErr result (self.new ≡ self.old) }
    {
        match &mut self.state {
            State::Started(parts) => {
                let found = find(parts, root);
                Ok(deref_weak(parts, to, root, found))
            }
            State::Closed | State::Spent => Err(HeapFault::Spent),
        }
    }

    /// As `deref`, with no further look at the weak object: `found` is what the call `found` answers for its slot now.
    pub fn deref_found(
        &mut self,
        to: u32,
        root: u32,
        found: Option<Found>,
    ) -> Result<Option<u64>, HeapFault>
        requires can { CanDo self.old (Deref to root) }
        requires found { found ≡ found_in self.old root }
        ensures performs { IfOk result (λ birth. Performs self.old self.new (Deref to root) [] (Derefed birth ∷ [])) }
        ensures spent { IsTrue self.old.is_spent → result ≡ Err Spent }
        ensures cause { OnErr result (IsTrue self.old.is_spent) }
        ensures err { OnErr result (self.new ≡ self.old) }
    {
        match &mut self.state {
            State::Started(parts) => Ok(deref_weak(parts, to, root, found)),
            State::Closed | State::Spent => Err(HeapFault::Spent),
        }
    }
}

/// Room is made for a weak object of a type that was found, which is then born for a slot. The lines of both are appended.
fn bear_weak(
    parts: &mut Parts,
    collector: &mut Collector,
    root: u32,
    type_id: u16,
    found: Option<TypeInfo>,
    target: u32,
    out: &mut Vec<Line>,
) -> Result<(), HeapFault>
    requires ready { AreReady parts.old (NewWeak root type_id target) }
    requires found { found ≡ value_at parts.old.setup.types type_id }
    ensures { EndsBirth (NewWeak root type_id target) parts.old parts.new out.old.items out.new.items result }
{
    let Some(info) = found else {
        return Err(HeapFault::OutOfMemory);
    };
    match make_room(parts, collector, words(info, 0), out) {
        Ok(()) => {}
        Err(fault) => return Err(fault),
    }
    match bear_weak_in_room(parts, root, type_id, info, target, out) {
        Ok(()) => Ok(()),
        Err(_) => Err(HeapFault::OutOfMemory),
    }
}

/// A weak object is born for a slot, with what another slot holds as its target, and its line is appended. The error is
/// out of memory, also where the next birth would reach 2^63.
fn bear_weak_in_room(
    parts: &mut Parts,
    root: u32,
    type_id: u16,
    info: TypeInfo,
    target: u32,
    out: &mut Vec<Line>,
) -> Result<(), AllocError>
    requires may { MayBearWeak parts.old root type_id }
    requires known { value_at parts.old.setup.types type_id ≡ Some info }
    ensures bears { OnOk result (BearsWeakKnown parts.old parts.new root type_id target out.old.items out.new.items) }
    ensures err { OnErr result (PartsKeep parts.old parts.new) }
    ensures err_out { OnErr result (out.new.items ≡ out.old.items) }
{
    let birth = parts.next_birth();
    if birth > LAST_BIRTH {
        return Err(AllocError);
    }
    out.reserve(1)?;
    let place = parts.place(target);
    let old = parts.bear_weak(root, type_id, info, place)?;
    out.push_reserved(Line::Born { birth, old });
    Ok(())
}

/// Puts the target of the weak object in a slot, which was found before, into a slot, and answers its birth.
fn deref_weak(parts: &mut Parts, to: u32, root: u32, found: Option<Found>) -> Option<u64>
    requires ready { AreReady parts.old (Deref to root) }
    requires found { found ≡ found_of parts.old root }
    ensures { PartsDo parts.old parts.new (Deref to root) (Derefed result ∷ []) }
{
    let Some(seen) = found else {
        unreachable!();
    };
    let place = read_target(parts, seen);
    let birth = parts.birth_of(place);
    parts.set_slot(to, place);
    birth
}
