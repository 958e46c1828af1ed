//! Objects that may not move.
ghost use Rattle.std.specs.Prelude.{◌≡◌, [], ◌∷◌, IsTrue, IfOk, OnErr, Err};
ghost use Rattle.text_model.specs.declared.command.Command.TheVariants.{Pin, Unpin};
ghost use Rattle.text_model.specs.declared.line.Line.TheVariants.{PinIs};
ghost use Rattle.store_model.specs.Identity.{can_refer as can_refer_of};
ghost use Rattle.heap_core.specs.declared.fault.HeapFault.TheVariants.{Spent};
ghost use Rattle.heap_core.specs.Commands.{AreReady, CanDo, PartsDo, Performs, done_unless};
ghost use Rattle.heap_core.specs.Pinning.{can_pin_in};

use crate::fault::HeapFault;
use crate::heap::{Heap, State};
use heap_parts::Parts;
use type_table::Shape;

// The place of the first word outside the nursery.
const FIRST_OLD: u64 = 4_294_967_296;

impl Heap {
    /// Pins the object in a slot once more, and answers whether it did. It does not where the object is settled or of a type
    /// that can hold references, where it has 65,535 pins (a rule of this project), and where it has none and as many
    /// objects are pinned as the setting `pins` says. It does not allocate.
    pub fn pin(&mut self, root: u32) -> Result<bool, HeapFault>
        requires { CanDo self.old (Pin root) }
        ensures performs { IfOk result (λ yes. Performs self.old self.new (Pin root) [] (PinIs yes ∷ [])) }
        ensures err { OnErr result (self.new ≡ self.old) }
        ensures cause { OnErr result (IsTrue self.old.is_spent) }
        ensures spent { IsTrue self.old.is_spent → result ≡ Err Spent }
    {
        match &mut self.state {
            State::Started(parts) => Ok(pin_object(parts, root)),
            State::Closed | State::Spent => Err(HeapFault::Spent),
        }
    }

    /// Takes one pin off the object in a slot. It may move again once it has none.
    pub fn unpin(&mut self, root: u32) -> Result<(), HeapFault>
        requires { CanDo self.old (Unpin root) }
        ensures performs { Performs self.old self.new (Unpin root) [] [] }
        ensures done { result ≡ done_unless self.old.is_spent }
        ensures spent { IsTrue self.old.is_spent → self.new ≡ self.old }
    {
        match &mut self.state {
            State::Started(parts) => {
                unpin_object(parts, root);
                Ok(())
            }
            State::Closed | State::Spent => Err(HeapFault::Spent),
        }
    }
}

/// Pins the object in a slot once more, if it can be.
fn pin_object(parts: &mut Parts, root: u32) -> bool
    requires { AreReady parts.old (Pin root) }
    ensures { PartsDo parts.old parts.new (Pin root) (PinIs result ∷ []) }
{
    if may_pin(parts, root) {
        let place = parts.place(root);
        parts.pin(place);
        return true;
    }
    false
}

/// Whether the object in a slot can be pinned once more.
fn may_pin(parts: &Parts, root: u32) -> bool
    requires { AreReady parts.now (Pin root) }
    ensures { result ≡ can_pin_in parts.now root }
{
    let Some(kind) = parts.kind(root) else {
        return false;
    };
    let place = parts.place(root);
    if place >= FIRST_OLD {
        return false;
    }
    if can_refer(kind.shape) {
        return false;
    }
    parts.has_pin_room(place)
}

/// Whether objects of a shape can hold references or a target.
fn can_refer(shape: Shape) -> bool
    ensures { result ≡ can_refer_of shape }
{
    match shape {
        Shape::Fixed { ints: _, refs } => refs > 0,
        Shape::IntArray => false,
        Shape::RefArray | Shape::Weak => true,
    }
}

/// Takes one pin off the object in a slot.
fn unpin_object(parts: &mut Parts, root: u32)
    requires { AreReady parts.old (Unpin root) }
    ensures { PartsDo parts.old parts.new (Unpin root) [] }
{
    let place = parts.place(root);
    parts.unpin(place);
}
