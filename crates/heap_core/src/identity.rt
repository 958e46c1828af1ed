//! The identity of an object, which it keeps for life.
ghost use Rattle.std.specs.Prelude.{◌≡◌, ◌≢◌, [], ◌∷◌, IsTrue, IfOk, IfErr, OnErr, Err};
ghost use Rattle.text_model.specs.declared.command.Command.TheVariants.{Ident, Hash, Place};
ghost use Rattle.text_model.specs.declared.line.Line.TheVariants.{IdentIs, HashIs, PlaceIs};
ghost use Rattle.heap_parts.specs.Parts.{place_in};
ghost use Rattle.heap_core.specs.declared.fault.HeapFault.TheVariants.{Spent, OutOfMemory};
ghost use Rattle.heap_core.specs.Commands.{AreStanding, AreReady, CanDo, PartsDo, PartsKeep, Performs, Keeps, fault_of};
ghost use Rattle.heap_core.specs.Telling.{NeedsHome, NeedsHomeIn, PartsTell};

use crate::fault::HeapFault;
use crate::heap::{Heap, State};
use heap_parts::Parts;
use shadow_ids::hash_of;
use std::alloc::AllocError;

// The place of the first word outside the nursery.
const FIRST_OLD: u64 = 4_294_967_296;

impl Heap {
    /// The identity of the object in a slot: its place if it is settled, and else the place where it is to settle. That is
    /// reserved when it is asked for first, which PyPy calls the object's shadow, and told again from then on. Out of memory
    /// only where it has to be reserved. After an error the heap represents the stores that it represented.
    pub fn identity(&mut self, root: u32) -> Result<u64, HeapFault>
        requires { CanDo self.old (Ident root) }
        ensures performs { IfOk result (λ home. Performs self.old self.new (Ident root) [] (IdentIs home ∷ [])) }
        ensures err { OnErr result (Keeps self.old self.new) }
        ensures cause { IfErr result (λ fault. fault ≡ fault_of self.old.is_spent) }
        ensures needed { IfErr result (λ fault. fault ≡ OutOfMemory → NeedsHomeIn self.old root) }
        ensures spent { IsTrue self.old.is_spent → result ≡ Err Spent }
    {
        match &mut self.state {
            State::Started(parts) => Ok(tell_identity(parts, root)?),
            State::Closed | State::Spent => Err(HeapFault::Spent),
        }
    }

    /// The hash of the object in a slot, a function of its identity alone. Errors are as at `identity`.
    pub fn hash(&mut self, root: u32) -> Result<u64, HeapFault>
        requires { CanDo self.old (Hash root) }
        ensures performs { IfOk result (λ value. Performs self.old self.new (Hash root) [] (HashIs value ∷ [])) }
        ensures err { OnErr result (Keeps self.old self.new) }
        ensures cause { IfErr result (λ fault. fault ≡ fault_of self.old.is_spent) }
        ensures needed { IfErr result (λ fault. fault ≡ OutOfMemory → NeedsHomeIn self.old root) }
        ensures spent { IsTrue self.old.is_spent → result ≡ Err Spent }
    {
        match &mut self.state {
            State::Started(parts) => Ok(tell_hash(parts, root)?),
            State::Closed | State::Spent => Err(HeapFault::Spent),
        }
    }

    /// The place of the object in a slot, None where it is not settled and may still move.
    pub fn where_is(&self, root: u32) -> Result<Option<u64>, HeapFault>
        requires { CanDo self.now (Place root) }
        ensures performs { IfOk result (λ place. Performs self.now self.now (Place root) [] (PlaceIs place ∷ [])) }
        ensures spent { IsTrue self.now.is_spent → result ≡ Err Spent }
        ensures cause { OnErr result (IsTrue self.now.is_spent) }
    {
        match &self.state {
            State::Started(parts) => Ok(settled_place(parts, root)),
            State::Closed | State::Spent => Err(HeapFault::Spent),
        }
    }
}

/// The place of the object in a slot, None where it is not settled.
fn settled_place(parts: &Parts, root: u32) -> Option<u64>
    requires { AreReady parts.now (Place root) }
    ensures { PartsDo parts.now parts.now (Place root) (PlaceIs result ∷ []) }
{
    let place = parts.place(root);
    if place < FIRST_OLD {
        return None;
    }
    Some(place)
}

/// The home of the object in a slot.
fn tell_identity(parts: &mut Parts, root: u32) -> Result<u64, AllocError>
    requires { AreReady parts.old (Ident root) }
    ensures does { IfOk result (λ home. PartsDo parts.old parts.new (Ident root) (IdentIs home ∷ [])) }
    ensures err { OnErr result (PartsKeep parts.old parts.new) }
    ensures needed { OnErr result (NeedsHome parts.old root) }
{
    tell_home(parts, root)
}

/// The hash of the home of the object in a slot.
fn tell_hash(parts: &mut Parts, root: u32) -> Result<u64, AllocError>
    requires { AreReady parts.old (Hash root) }
    ensures does { IfOk result (λ value. PartsDo parts.old parts.new (Hash root) (HashIs value ∷ [])) }
    ensures err { OnErr result (PartsKeep parts.old parts.new) }
    ensures needed { OnErr result (NeedsHome parts.old root) }
{
    Ok(hash_of(tell_home(parts, root)?))
}

/// The home of the object in a slot: its place if it is settled, and else what is reserved for it. That is done now if it was
/// not yet.
fn tell_home(parts: &mut Parts, root: u32) -> Result<u64, AllocError>
    requires standing { AreStanding parts.old }
    requires full { place_in parts.old root ≢ 0 }
    ensures tells { IfOk result (λ home. PartsTell parts.old parts.new root home) }
    ensures err { OnErr result (PartsKeep parts.old parts.new) }
    ensures needed { OnErr result (NeedsHome parts.old root) }
{
    let place = parts.place(root);
    let is_settled = place >= FIRST_OLD;
    if is_settled {
        return Ok(place);
    }
    if let Some(home) = parts.home(place) {
        return Ok(home);
    }
    parts.reserve_home(place)
}
