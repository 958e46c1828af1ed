//! A heap: closed, started with its parts, or spent.
ghost use Rattle.std.specs.Prelude.{◌≡◌, OnOk, OnErr, IfErr};
ghost use Rattle.store_model.specs.Store.{empty_store};
ghost use Rattle.object_model.specs.SettingRanges.{AreInRange};
ghost use Rattle.heap_core.specs.declared.fault.HeapFault.TheVariants.{OutOfMemory};
ghost use Rattle.heap_core.specs.Heap.{closed_heap, StandsFor};
ghost use Rattle.heap_core.specs.Commands.{IsFresh};

use crate::collecting::Collector;
use crate::fault::HeapFault;
use heap_parts::Parts;
use object_model::Settings;
use std::alloc::Global;
use std::marker::Model;
use type_table::TypeTable;

/// What has become of a heap.
#[derive(Drop)]
pub(crate) enum State {
    Closed,
    Started(Parts),
    Spent,
}

/// The objects that a script makes, in words, and its root slots. A contract sees its parts as plain data, and which
/// stores they represent.
#[derive(Drop)]
pub struct Heap {
    pub(crate) state: State,
    /// What collections work with, from the first collection on.
    pub(crate) collector: Option<Collector>,
}

impl Model for Heap {
    ghost use Rattle.std.specs.Coded.{codes};
    ghost use Rattle.heap_parts.specs.Code.{old_code, homes_code};
    ghost use Rattle.heap_core.specs.Heap.{HeapSeen};
    ghost use Rattle.heap_core.specs.Seen.{seen};

    ghost Value = { HeapSeen };

    ghost coded = { Prim.hlevel (codes, old_code, homes_code) };

    ghost view = { λ h. seen h.state };
}

impl Heap {
    /// A heap that is not started, which represents the empty store. It does not allocate.
    pub fn closed() -> Self
        ensures { result ≡ closed_heap }
    {
        Heap {
            state: State::Closed,
            collector: None,
        }
    }

    /// Starts a closed heap with these settings and types: it then represents the empty store. The error is out of
    /// memory, and the heap is still closed then.
    pub fn start(
        &mut self,
        alloc: Global,
        settings: &Settings,
        types: TypeTable,
    ) -> Result<(), HeapFault>
        requires closed { self.old ≡ closed_heap }
        requires settings { AreInRange settings.now }
        ensures started { OnOk result (IsFresh self.new settings.now types) }
        ensures empty { OnOk result (StandsFor self.new (empty_store settings.now)) }
        ensures err { OnErr result (self.new ≡ self.old) }
        ensures cause { IfErr result (λ fault. fault ≡ OutOfMemory) }
    {
        let parts = Parts::new(alloc, settings, types)?;
        self.state = State::Started(parts);
        Ok(())
    }

    /// Whether memory ran out in the middle of a collection. Each call answers `Spent` then, and changes nothing.
    pub fn is_spent(&self) -> bool
        ensures { result ≡ self.now.is_spent }
    {
        match self.state {
            State::Spent => true,
            State::Closed | State::Started(_) => false,
        }
    }
}
