//! C structures that are linked with objects, as in PyPy's rawrefcount.
ghost use Rattle.std.specs.Prelude.{◌≡◌, [], ◌∷◌, IsTrue, IfOk, IfErr, OnOk, OnErr, Err};
ghost use Rattle.text_model.specs.declared.command.Command.TheVariants.{MakeLink, Inc, Dec as DecCommand, Count, FromObj, ToObj, NextDead};
ghost use Rattle.text_model.specs.declared.line.Line.TheVariants.{CountIs, FromObjIs, ToObjIs, NextDeadIs};
ghost use Rattle.heap_core.specs.declared.fault.HeapFault.TheVariants.{Spent};
ghost use Rattle.heap_core.specs.Commands.{AreReady, CanDo, PartsDo, Performs, done_unless, fault_of};
ghost use Rattle.heap_core.specs.StructLines.{dec_lines};

use crate::fault::HeapFault;
use crate::heap::{Heap, State};
use heap_parts::Parts;
use rawref_links::Dec;
use std::alloc::AllocError;

impl Heap {
    /// Makes a structure under a free number, linked with the object in a slot by a P link or an O link, plain or light, with
    /// this own count. After an error nothing is changed.
    pub fn make_link(
        &mut self,
        p: bool,
        number: u32,
        root: u32,
        light: bool,
        own: u64,
    ) -> Result<(), HeapFault>
        requires { CanDo self.old (MakeLink p number root light own) }
        ensures performs { OnOk result (Performs self.old self.new (MakeLink p number root light own) [] []) }
        ensures err { OnErr result (self.new ≡ self.old) }
        ensures cause { IfErr result (λ fault. fault ≡ fault_of self.old.is_spent) }
        ensures spent { IsTrue self.old.is_spent → result ≡ Err Spent }
    {
        match &mut self.state {
            State::Started(parts) => Ok(link_object(parts, p, number, root, light, own)?),
            State::Closed | State::Spent => Err(HeapFault::Spent),
        }
    }

    /// Raises the own count of a structure by one. An object that it keeps from then on is revived.
    pub fn inc(&mut self, number: u32) -> Result<(), HeapFault>
        requires { CanDo self.old (Inc number) }
        ensures performs { Performs self.old self.new (Inc number) [] [] }
        ensures done { result ≡ done_unless self.old.is_spent }
        ensures spent { IsTrue self.old.is_spent → self.new ≡ self.old }
    {
        match &mut self.state {
            State::Started(parts) => {
                raise_count(parts, number);
                Ok(())
            }
            State::Closed | State::Spent => Err(HeapFault::Spent),
        }
    }

    /// Lowers the own count of a structure by one, and tells whether it is gone then, since nothing else held it.
    pub fn dec(&mut self, number: u32) -> Result<Dec, HeapFault>
        requires { CanDo self.old (DecCommand number) }
        ensures performs { IfOk result (λ dec. Performs self.old self.new (DecCommand number) [] (dec_lines number dec)) }
        ensures spent { IsTrue self.old.is_spent → result ≡ Err Spent }
        ensures cause { OnErr result (IsTrue self.old.is_spent) }
        ensures err { OnErr result (self.new ≡ self.old) }
    {
        match &mut self.state {
            State::Started(parts) => Ok(lower_count(parts, number)),
            State::Closed | State::Spent => Err(HeapFault::Spent),
        }
    }

    /// The count of a structure: PyPy's share, if it is linked, and its own count.
    pub fn count(&self, number: u32) -> Result<u64, HeapFault>
        requires { CanDo self.now (Count number) }
        ensures performs { IfOk result (λ value. Performs self.now self.now (Count number) [] (CountIs value ∷ [])) }
        ensures spent { IsTrue self.now.is_spent → result ≡ Err Spent }
        ensures cause { OnErr result (IsTrue self.now.is_spent) }
    {
        match &self.state {
            State::Started(parts) => Ok(tell_count(parts, number)),
            State::Closed | State::Spent => Err(HeapFault::Spent),
        }
    }

    /// The structure that has a P link with the object in a slot, None where none has.
    pub fn from_obj(&self, root: u32) -> Result<Option<u32>, HeapFault>
        requires { CanDo self.now (FromObj root) }
        ensures performs { IfOk result (λ number. Performs self.now self.now (FromObj root) [] (FromObjIs number ∷ [])) }
        ensures spent { IsTrue self.now.is_spent → result ≡ Err Spent }
        ensures cause { OnErr result (IsTrue self.now.is_spent) }
    {
        match &self.state {
            State::Started(parts) => Ok(linked_struct(parts, root)),
            State::Closed | State::Spent => Err(HeapFault::Spent),
        }
    }

    /// Puts the object that a structure is linked with into a slot, and answers its birth, None where it is not linked. The
    /// object is revived.
    pub fn to_obj(&mut self, to: u32, number: u32) -> Result<Option<u64>, HeapFault>
        requires { CanDo self.old (ToObj to number) }
        ensures performs { IfOk result (λ birth. Performs self.old self.new (ToObj to number) [] (ToObjIs birth ∷ [])) }
        ensures spent { IsTrue self.old.is_spent → result ≡ Err Spent }
        ensures cause { OnErr result (IsTrue self.old.is_spent) }
        ensures err { OnErr result (self.new ≡ self.old) }
    {
        match &mut self.state {
            State::Started(parts) => Ok(put_object(parts, to, number)),
            State::Closed | State::Spent => Err(HeapFault::Spent),
        }
    }

    /// Takes the oldest structure out of the dead queue, and answers its number, None where none waits. From then on its own
    /// count of 1 holds it.
    pub fn next_dead(&mut self) -> Result<Option<u32>, HeapFault>
        requires { CanDo self.old NextDead }
        ensures performs { IfOk result (λ number. Performs self.old self.new NextDead [] (NextDeadIs number ∷ [])) }
        ensures spent { IsTrue self.old.is_spent → result ≡ Err Spent }
        ensures cause { OnErr result (IsTrue self.old.is_spent) }
        ensures err { OnErr result (self.new ≡ self.old) }
    {
        match &mut self.state {
            State::Started(parts) => Ok(take_dead(parts)),
            State::Closed | State::Spent => Err(HeapFault::Spent),
        }
    }
}

/// Makes a structure that is linked with the object in a slot.
fn link_object(
    parts: &mut Parts,
    p: bool,
    number: u32,
    root: u32,
    light: bool,
    own: u64,
) -> Result<(), AllocError>
    requires { AreReady parts.old (MakeLink p number root light own) }
    ensures does { OnOk result (PartsDo parts.old parts.new (MakeLink p number root light own) []) }
    ensures err { OnErr result (parts.new ≡ parts.old) }
{
    let place = parts.place(root);
    parts.make_link(p, number, place, light, own)
}

/// Raises the own count of a structure by one.
fn raise_count(parts: &mut Parts, number: u32)
    requires { AreReady parts.old (Inc number) }
    ensures { PartsDo parts.old parts.new (Inc number) [] }
{
    parts.inc(number);
}

/// Lowers the own count of a structure by one.
fn lower_count(parts: &mut Parts, number: u32) -> Dec
    requires { AreReady parts.old (DecCommand number) }
    ensures { PartsDo parts.old parts.new (DecCommand number) (dec_lines number result) }
{
    parts.dec(number)
}

/// The count of a structure.
fn tell_count(parts: &Parts, number: u32) -> u64
    requires { AreReady parts.now (Count number) }
    ensures { PartsDo parts.now parts.now (Count number) (CountIs result ∷ []) }
{
    parts.count(number)
}

/// The structure that has a P link with the object in a slot.
fn linked_struct(parts: &Parts, root: u32) -> Option<u32>
    requires { AreReady parts.now (FromObj root) }
    ensures { PartsDo parts.now parts.now (FromObj root) (FromObjIs result ∷ []) }
{
    let place = parts.place(root);
    parts.p_link(place)
}

/// Puts the object that a structure is linked with into a slot, and answers its birth.
fn put_object(parts: &mut Parts, to: u32, number: u32) -> Option<u64>
    requires { AreReady parts.old (ToObj to number) }
    ensures { PartsDo parts.old parts.new (ToObj to number) (ToObjIs result ∷ []) }
{
    let place = parts.linked_place(number).unwrap_or(0);
    let birth = parts.birth_of(place);
    parts.set_slot(to, place);
    birth
}

/// Takes the oldest structure out of the dead queue.
fn take_dead(parts: &mut Parts) -> Option<u32>
    requires { AreReady parts.old NextDead }
    ensures { PartsDo parts.old parts.new NextDead (NextDeadIs result ∷ []) }
{
    parts.next_dead()
}
