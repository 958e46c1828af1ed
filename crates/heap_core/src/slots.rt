//! Root slots.
ghost use Rattle.std.specs.Prelude.{◌≡◌, ◌==◌, [], ◌∷◌, IsTrue, IfOk, OnErr, Err};
ghost use Rattle.text_model.specs.declared.command.Command.TheVariants.{Load, MoveRoot, DropRoot, Same};
ghost use Rattle.text_model.specs.declared.line.Line.TheVariants.{Loaded, SameAs};
ghost use Rattle.heap_core.specs.declared.fault.HeapFault.TheVariants.{Spent};
ghost use Rattle.heap_core.specs.Commands.{AreReady, CanDo, PartsDo, Performs, done_unless};
ghost use Rattle.heap_core.specs.Found.{found_of, found_in};

use crate::fault::HeapFault;
use crate::found::{Found, find, read_ref};
use crate::heap::{Heap, State};
use heap_parts::Parts;

impl Heap {
    /// Puts a reference of the object in a slot into a slot, and answers the birth that it leads to, None where it is nil.
    pub fn load(&mut self, to: u32, root: u32, i: u64) -> Result<Option<u64>, HeapFault>
        requires { CanDo self.old (Load to root i) }
        ensures performs { IfOk result (λ birth. Performs self.old self.new (Load to root i) [] (Loaded birth ∷ [])) }
        ensures spent { IsTrue self.old.is_spent → result ≡ Err Spent }
        ensures cause { OnErr result (IsTrue self.old.is_spent) }
        ensures err { OnErr result (self.new ≡ self.old) }
    {
        match &mut self.state {
            State::Started(parts) => {
                let found = find(parts, root);
                Ok(load_ref(parts, to, root, found, i))
            }
            State::Closed | State::Spent => Err(HeapFault::Spent),
        }
    }

    /// As `load`, with no further look at the object: `found` is what the call `found` answers for its slot now.
    pub fn load_found(
        &mut self,
        to: u32,
        root: u32,
        found: Option<Found>,
        i: u64,
    ) -> Result<Option<u64>, HeapFault>
        requires can { CanDo self.old (Load to root i) }
        requires found { found ≡ found_in self.old root }
        ensures performs { IfOk result (λ birth. Performs self.old self.new (Load to root i) [] (Loaded birth ∷ [])) }
        ensures spent { IsTrue self.old.is_spent → result ≡ Err Spent }
        ensures cause { OnErr result (IsTrue self.old.is_spent) }
        ensures err { OnErr result (self.new ≡ self.old) }
    {
        match &mut self.state {
            State::Started(parts) => Ok(load_ref(parts, to, root, found, i)),
            State::Closed | State::Spent => Err(HeapFault::Spent),
        }
    }

    /// Puts what a slot holds into another, or empties it.
    pub fn move_root(&mut self, to: u32, from: u32) -> Result<(), HeapFault>
        requires { CanDo self.old (MoveRoot to from) }
        ensures performs { Performs self.old self.new (MoveRoot to from) [] [] }
        ensures done { result ≡ done_unless self.old.is_spent }
        ensures spent { IsTrue self.old.is_spent → self.new ≡ self.old }
    {
        match &mut self.state {
            State::Started(parts) => {
                move_place(parts, to, from);
                Ok(())
            }
            State::Closed | State::Spent => Err(HeapFault::Spent),
        }
    }

    /// Empties a slot.
    pub fn drop_root(&mut self, root: u32) -> Result<(), HeapFault>
        requires { CanDo self.old (DropRoot root) }
        ensures performs { Performs self.old self.new (DropRoot root) [] [] }
        ensures done { result ≡ done_unless self.old.is_spent }
        ensures spent { IsTrue self.old.is_spent → self.new ≡ self.old }
    {
        match &mut self.state {
            State::Started(parts) => {
                drop_place(parts, root);
                Ok(())
            }
            State::Closed | State::Spent => Err(HeapFault::Spent),
        }
    }

    /// Whether two slots hold the same. Two empty slots do.
    pub fn same(&self, a: u32, b: u32) -> Result<bool, HeapFault>
        requires { CanDo self.now (Same a b) }
        ensures performs { IfOk result (λ yes. Performs self.now self.now (Same a b) [] (SameAs yes ∷ [])) }
        ensures spent { IsTrue self.now.is_spent → result ≡ Err Spent }
        ensures cause { OnErr result (IsTrue self.now.is_spent) }
    {
        match &self.state {
            State::Started(parts) => Ok(same_place(parts, a, b)),
            State::Closed | State::Spent => Err(HeapFault::Spent),
        }
    }
}

/// Puts a reference of the object in a slot, which was found before, into a slot, and answers the birth that it leads to.
fn load_ref(parts: &mut Parts, to: u32, root: u32, found: Option<Found>, i: u64) -> Option<u64>
    requires ready { AreReady parts.old (Load to root i) }
    requires found { found ≡ found_of parts.old root }
    ensures { PartsDo parts.old parts.new (Load to root i) (Loaded result ∷ []) }
{
    let Some(seen) = found else {
        unreachable!();
    };
    let place = read_ref(parts, seen, i);
    let birth = parts.birth_of(place);
    parts.set_slot(to, place);
    birth
}

/// Puts what a slot holds into another.
fn move_place(parts: &mut Parts, to: u32, from: u32)
    requires { AreReady parts.old (MoveRoot to from) }
    ensures { PartsDo parts.old parts.new (MoveRoot to from) [] }
{
    let place = parts.place(from);
    parts.set_slot(to, place);
}

/// Empties a slot.
fn drop_place(parts: &mut Parts, root: u32)
    requires { AreReady parts.old (DropRoot root) }
    ensures { PartsDo parts.old parts.new (DropRoot root) [] }
{
    parts.set_slot(root, 0);
}

/// Whether two slots hold the same.
fn same_place(parts: &Parts, a: u32, b: u32) -> bool
    requires { AreReady parts.now (Same a b) }
    ensures { PartsDo parts.now parts.now (Same a b) (SameAs result ∷ []) }
{
    parts.place(a) == parts.place(b)
}
