//! The words that a heap uses.
ghost use Rattle.std.specs.Prelude.{[], ◌∷◌, ◌≡◌, IsTrue, IfOk, OnErr, Err};
ghost use Rattle.text_model.specs.declared.command.Command.TheVariants.{Used};
ghost use Rattle.text_model.specs.declared.line.Line.TheVariants.{UsedIs};
ghost use Rattle.heap_core.specs.declared.fault.HeapFault.TheVariants.{Spent};
ghost use Rattle.heap_core.specs.Commands.{AreReady, CanDo, PartsDo, Performs};

use crate::fault::HeapFault;
use crate::heap::{Heap, State};
use heap_parts::Parts;

impl Heap {
    /// The words of all objects, and the words of husks: what was condemned and is not freed yet.
    pub fn used(&self) -> Result<(u64, u64), HeapFault>
        requires { CanDo self.now Used }
        ensures performs { IfOk result (λ words. Performs self.now self.now Used [] (UsedIs words.0 words.1 ∷ [])) }
        ensures spent { IsTrue self.now.is_spent → result ≡ Err Spent }
        ensures cause { OnErr result (IsTrue self.now.is_spent) }
    {
        match &self.state {
            State::Started(parts) => Ok(used_words(parts)),
            State::Closed | State::Spent => Err(HeapFault::Spent),
        }
    }
}

/// The words of all objects, and the words of husks.
fn used_words(parts: &Parts) -> (u64, u64)
    requires { AreReady parts.now Used }
    ensures { PartsDo parts.now parts.now Used (UsedIs result.0 result.1 ∷ []) }
{
    let husks = parts.husk_words();
    (parts.counted_words() - husks, husks)
}
