//! Objects with finalizers, and the queues that they enter.
ghost use Rattle.std.specs.Prelude.{◌≡◌, [], ◌∷◌, IsTrue, IfOk, OnOk, OnErr, IfErr, Err};
ghost use Rattle.text_model.specs.declared.command.Command.TheVariants.{Register, NextFinal};
ghost use Rattle.text_model.specs.declared.line.Line.TheVariants.{NextIs};
ghost use Rattle.heap_core.specs.declared.fault.HeapFault.TheVariants.{Spent};
ghost use Rattle.heap_core.specs.Commands.{AreReady, CanDo, PartsDo, Performs, fault_of};

use crate::fault::HeapFault;
use crate::heap::{Heap, State};
use heap_parts::Parts;
use std::alloc::AllocError;

impl Heap {
    /// Registers the object in a slot with a queue, as PyPy's `register_finalizer` does. Once marking found that no
    /// root reaches it, it enters the queue, and when it has left the queue it may be registered again. After an error nothing is
    /// changed.
    pub fn register(&mut self, root: u32, queue: u64) -> Result<(), HeapFault>
        requires { CanDo self.old (Register root queue) }
        ensures performs { OnOk result (Performs self.old self.new (Register root queue) [] []) }
        ensures err { OnErr result (self.new ≡ self.old) }
        ensures cause { IfErr result (λ fault. fault ≡ fault_of self.old.is_spent) }
        ensures spent { IsTrue self.old.is_spent → result ≡ Err Spent }
    {
        match &mut self.state {
            State::Started(parts) => Ok(register_object(parts, root, queue)?),
            State::Closed | State::Spent => Err(HeapFault::Spent),
        }
    }

    /// Takes the first object out of a queue and puts it into a slot, and answers its birth. Where the queue is empty, the slot
    /// becomes empty, and the answer is None.
    pub fn next_final(&mut self, to: u32, queue: u64) -> Result<Option<u64>, HeapFault>
        requires { CanDo self.old (NextFinal to queue) }
        ensures performs { IfOk result (λ birth. Performs self.old self.new (NextFinal to queue) [] (NextIs birth ∷ [])) }
        ensures spent { IsTrue self.old.is_spent → result ≡ Err Spent }
        ensures cause { OnErr result (IsTrue self.old.is_spent) }
        ensures err { OnErr result (self.new ≡ self.old) }
    {
        match &mut self.state {
            State::Started(parts) => Ok(take_final(parts, to, queue)),
            State::Closed | State::Spent => Err(HeapFault::Spent),
        }
    }
}

/// Registers the object in a slot with a queue.
fn register_object(parts: &mut Parts, root: u32, queue: u64) -> Result<(), AllocError>
    requires { AreReady parts.old (Register root queue) }
    ensures does { OnOk result (PartsDo parts.old parts.new (Register root queue) []) }
    ensures err { OnErr result (parts.new ≡ parts.old) }
{
    let place = parts.place(root);
    parts.register(place, queue)
}

/// Takes the first object out of a queue and puts it into a slot, and answers its birth.
fn take_final(parts: &mut Parts, to: u32, queue: u64) -> Option<u64>
    requires { AreReady parts.old (NextFinal to queue) }
    ensures { PartsDo parts.old parts.new (NextFinal to queue) (NextIs result ∷ []) }
{
    let place = parts.next_final(queue).unwrap_or(0);
    let birth = parts.birth_of(place);
    parts.set_slot(to, place);
    birth
}
