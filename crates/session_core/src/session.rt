//! The items of a script, one after another: which are refused, and what the others do.
ghost use Rattle.std.specs.Prelude.{◌≡◌, ◌≢◌, [], None, Some, IfOk, IfErr, OnOk, OnErr, slice_get, false};
ghost use Rattle.text_model.specs.declared.item.Item.TheVariants.{Command as CommandItem};
ghost use Rattle.object_model.specs.SettingRanges.{is_outside, ranges};
ghost use Rattle.store_model.specs.Progress.{Progress};
ghost use Rattle.object_model.specs.Setup.{defaults};
ghost use Rattle.heap_core.specs.declared.fault.HeapFault.TheVariants.{Spent, OutOfMemory as NoMemory};
ghost use Rattle.session_core.specs.Seen.{SessionSeen};
ghost use Rattle.session_core.specs.Finding.{found_for, source_for, type_for};
ghost use Rattle.session_core.specs.Standing.{IsPlaced, StandsAt, Answers, Sets, Adds, Begins, fault_told, refusal_of, setup_of};

use crate::commands::do_command;
use crate::settings::with_setting;
use crate::told::Looked;
use heap_core::{Heap, HeapFault};
use std::alloc::{AllocError, AllocFailed, Global};
use std::marker::Model;
use store_model::{Command, Item, Line, Reason, Settings, TypeInfo};
use thiserror::Error;
use type_table::{TypeFault, TypeTable};

/// Why an item was not done.
#[derive(Clone, Copy, Debug, PartialEq, Eq, Error)]
pub enum RunFault {
    #[error("malformed: {0:?}")]
    Malformed(Reason),
    /// A birth does not fit under the limit, even after a whole collection.
    #[error("heap limit: {counted} + {request} > {limit}")]
    HeapLimit {
        /// The words of all objects and husks.
        counted: u64,
        /// The words of the object that was to be born.
        request: u64,
        /// The setting.
        limit: u64,
    },
    #[error("out of memory")]
    OutOfMemory,
}

impl From<AllocError> for RunFault {
    ghost use Rattle.session_core.specs.declared.session.RunFault.TheVariants.{OutOfMemory};

    ghost from_gives = { λ _ e. e ≡ OutOfMemory };

    fn from(_: AllocError) -> Self {
        RunFault::OutOfMemory
    }
}

impl<T: Drop> From<AllocFailed<T>> for RunFault {
    ghost use Rattle.session_core.specs.declared.session.RunFault.TheVariants.{OutOfMemory};

    ghost from_gives = { λ _ e. e ≡ OutOfMemory };

    fn from(_: AllocFailed<T>) -> Self {
        RunFault::OutOfMemory
    }
}

/// How an item is not done for which a call of the heap failed. A session's heap is not spent.
fn run_fault(fault: HeapFault) -> RunFault
    requires { fault ≢ Spent }
    ensures { result ≡ fault_told fault }
{
    match fault {
        HeapFault::Spent => unreachable!(),
        HeapFault::OutOfMemory => RunFault::OutOfMemory,
        HeapFault::HeapLimit {
            counted,
            request,
            limit,
        } => RunFault::HeapLimit {
            counted,
            request,
            limit,
        },
    }
}

/// What the lines before the first command gave. The types go to the heap at the first command.
#[derive(Drop)]
pub struct Session {
    pub(crate) alloc: Global,
    pub(crate) settings: Settings,
    // The numbers of the settings that were set, in order.
    pub(crate) names: Vec<u8>,
    // The types, until the heap has them.
    pub(crate) types: Option<TypeTable>,
    // The same types once more, for the heap. They are gone where out of memory has dropped them: the session has its own
    // still, but can start no heap.
    pub(crate) for_heap: Option<TypeTable>,
}

impl Model for Session {
    ghost use Rattle.object_model.specs.SettingRanges.{AreInRange};
    ghost use Rattle.session_core.specs.Seen.{SessionSeen, IsForHeap};

    ghost Value = { SessionSeen };

    ghost view = { λ s. record { settings = s.settings; names = s.names.items; types = s.types } };

    ghost invariant = { λ s. AreInRange s.settings × IsForHeap s.for_heap s.types };
}

impl Session {
    /// Nothing is set, and no type is there. The error is out of memory.
    pub fn new(alloc: Global) -> Result<Self, AllocError>
        ensures { IfOk result (λ session. session ≡ record { settings = defaults; names = []; types = Some [] }) }
    {
        Ok(Session {
            alloc,
            settings: Settings::DEFAULT,
            names: Vec::new(alloc),
            types: Some(TypeTable::new(alloc)?),
            for_heap: Some(TypeTable::new(alloc)?),
        })
    }

    /// Does an item of a script, and appends its lines. The heap is started at the first command that is not refused.
    ///
    /// What the lines held before stands in front of them after an error too. A refusal changes nothing. Where a birth exceeds
    /// the limit, the lines of its collections are appended. Where memory runs out, the heap is spent, or session and heap stand
    /// where the blocks of collections that were finished led; what is appended then is not said.
    pub fn item(
        &mut self,
        heap: &mut Heap,
        item: &Item,
        out: &mut Vec<Line>,
    ) -> Result<(), RunFault>
        requires { IsPlaced self.old heap.old }
        ensures answers { (at : Progress) → StandsAt self.old heap.old at → Answers at item.now self.new heap.new out.old.items out.new.items result }
    {
        let looked = self.looked(heap, item);
        if let Some(reason) = self.refusal(heap, item, &looked) {
            return Err(RunFault::Malformed(reason));
        }
        match *item {
            Item::Blank => Ok(()),
            Item::Setting { name, value } => match self.set(name, value) {
                Ok(()) => Ok(()),
                Err(_) => Err(RunFault::OutOfMemory),
            },
            Item::TypeDef { id, info } => match self.add_type(id, info) {
                Ok(()) => Ok(()),
                Err(_) => Err(RunFault::OutOfMemory),
            },
            Item::Command(command) => self.command(heap, &command, &looked, out),
        }
    }

    /// Does a command that is not refused, with what was looked at for it.
    fn command(
        &mut self,
        heap: &mut Heap,
        command: &Command,
        looked: &Looked,
        out: &mut Vec<Line>,
    ) -> Result<(), RunFault>
        requires placed { IsPlaced self.old heap.old }
        requires found { looked.now.found ≡ found_for heap.old command.now }
        requires source { looked.now.source ≡ source_for heap.old command.now }
        requires info { looked.now.info ≡ type_for (setup_of self.old heap.old) command.now }
        requires accepted { refusal_of self.old heap.old (CommandItem command.now) ≡ None }
        ensures { (at : Progress) → StandsAt self.old heap.old at →
            Answers at (CommandItem command.now) self.new heap.new out.old.items out.new.items result }
    {
        match self.begin(heap) {
            Ok(()) => {}
            Err(fault) => return Err(run_fault(fault)),
        }
        match do_command(heap, command, looked, out) {
            Ok(()) => Ok(()),
            Err(fault) => Err(run_fault(fault)),
        }
    }

    /// Sets a setting.
    fn set(&mut self, name: u8, value: u64) -> Result<(), AllocError>
        requires { is_outside (slice_get ranges name) value ≡ false }
        ensures sets { OnOk result (Sets self.old self.new name value) }
        ensures err { OnErr result (self.new ≡ self.old) }
    {
        self.names.push(name)?;
        self.settings = with_setting(&self.settings, name, value);
        Ok(())
    }

    /// Adds a type. The refusals were asked, so that memory alone can fail.
    fn add_type(&mut self, id: u16, info: TypeInfo) -> Result<(), TypeFault>
        ensures adds { OnOk result (Adds self.old self.new id info) }
        ensures err { OnErr result (self.new ≡ self.old) }
    {
        let Some(types) = &mut self.types else {
            return Err(TypeFault::OutOfMemory);
        };
        let Some(mut for_heap) = self.for_heap.take() else {
            return Err(TypeFault::OutOfMemory);
        };
        for_heap.add(id, info)?;
        types.add(id, info)?;
        self.for_heap = Some(for_heap);
        Ok(())
    }

    /// Starts the heap at the first command.
    fn begin(&mut self, heap: &mut Heap) -> Result<(), HeapFault>
        requires { IsPlaced self.old heap.old }
        ensures begins { OnOk result (Begins self.old self.new heap.old heap.new) }
        ensures err { OnErr result (self.new ≡ self.old) }
        ensures err_heap { OnErr result (heap.new ≡ heap.old) }
        ensures cause { IfErr result (λ fault. fault ≡ NoMemory) }
    {
        if self.types.is_none() {
            return Ok(());
        }
        let Some(types) = self.for_heap.take() else {
            return Err(HeapFault::OutOfMemory);
        };
        heap.start(self.alloc, &self.settings, types)?;
        self.types = None;
        Ok(())
    }
}
