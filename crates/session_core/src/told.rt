//! What a session's heap tells: before the first command, nothing.
ghost use Rattle.std.specs.Prelude.{◌≡◌, is_some, option_map};
ghost use Rattle.object_model.specs.Setup.{type_at};
ghost use Rattle.heap_core.specs.Found.{kind_of, found_in};
ghost use Rattle.session_core.specs.Finding.{found_for, found_by, source_for, source_by, kind_for, kind_by, source_kind_for, source_kind_by, type_for, type_by};
ghost use Rattle.session_core.specs.Standing.{IsPlaced, setup_of, seen_if};

use crate::session::Session;
use heap_core::{Found, Heap};
use store_model::{Command, Item, StructState, TypeInfo};

/// What was looked at before a command: its refusals ask of it, and the command is done with it.
#[derive(Clone, Copy)]
pub(crate) struct Looked {
    /// What was seen of the object whose items or target the command works on.
    pub(crate) found: Option<Found>,
    /// What was seen of the object from which it copies references.
    pub(crate) source: Option<Found>,
    /// The type of which it asks for an object.
    pub(crate) info: Option<TypeInfo>,
}

impl Session {
    /// The type of an id, if there is one.
    fn type_info(&self, heap: &Heap, id: u16) -> Option<TypeInfo>
        ensures { result ≡ type_at (setup_of self.now heap.now) id }
    {
        match &self.types {
            None => heap.type_info(id),
            Some(types) => types.get(id),
        }
    }

    /// What an item of the script is done with, if it is not refused: what is seen of the objects on which it works, and the type of
    /// a birth.
    pub(crate) fn looked(&self, heap: &Heap, item: &Item) -> Looked
        requires { IsPlaced self.now heap.now }
        ensures found { result.found ≡ found_by heap.now item.now }
        ensures kind { option_map kind_of result.found ≡ kind_by (seen_if self.now.types heap.now) item.now }
        ensures source { result.source ≡ source_by heap.now item.now }
        ensures source_kind { option_map kind_of result.source ≡ source_kind_by (seen_if self.now.types heap.now) item.now }
        ensures info { result.info ≡ type_by (setup_of self.now heap.now) item.now }
    {
        match *item {
            Item::Command(command) => Looked {
                found: self.found_for(heap, &command),
                source: self.source_for(heap, &command),
                info: self.type_for(heap, &command),
            },
            _ => Looked {
                found: None,
                source: None,
                info: None,
            },
        }
    }

    /// The type of which a command asks for an object, if it is such a command and the type is there.
    fn type_for(&self, heap: &Heap, command: &Command) -> Option<TypeInfo>
        ensures { result ≡ type_for (setup_of self.now heap.now) command.now }
    {
        match *command {
            Command::NewFixed { type_id, .. } => self.type_info(heap, type_id),
            Command::NewArray { type_id, .. } => self.type_info(heap, type_id),
            Command::NewWeak { type_id, .. } => self.type_info(heap, type_id),
            _ => None,
        }
    }

    /// What is seen of the object whose items or target a command works on, if it is such a command and that object is there.
    fn found_for(&self, heap: &Heap, command: &Command) -> Option<Found>
        requires { IsPlaced self.now heap.now }
        ensures value { result ≡ found_for heap.now command.now }
        ensures kind { option_map kind_of result ≡ kind_for (seen_if self.now.types heap.now) command.now }
    {
        match *command {
            Command::Put { root, .. } => self.found_in(heap, root),
            Command::Get { root, .. } => self.found_in(heap, root),
            Command::Link { root, .. } => self.found_in(heap, root),
            Command::Load { root, .. } => self.found_in(heap, root),
            Command::CopyRefs { root, .. } => self.found_in(heap, root),
            Command::Deref { root, .. } => self.found_in(heap, root),
            _ => None,
        }
    }

    /// What is seen of the object from which a command copies references, if it is such a command and that object is there.
    fn source_for(&self, heap: &Heap, command: &Command) -> Option<Found>
        requires { IsPlaced self.now heap.now }
        ensures value { result ≡ source_for heap.now command.now }
        ensures kind { option_map kind_of result ≡ source_kind_for (seen_if self.now.types heap.now) command.now }
    {
        match *command {
            Command::CopyRefs { from, .. } => self.found_in(heap, from),
            _ => None,
        }
    }

    /// What is seen of the object in a slot, if there is one.
    fn found_in(&self, heap: &Heap, root: u32) -> Option<Found>
        requires { IsPlaced self.now heap.now }
        ensures value { result ≡ found_in heap.now root }
        ensures kind { option_map kind_of result ≡ (seen_if self.now.types heap.now).kind root }
    {
        match &self.types {
            None => heap.found(root),
            Some(_) => None,
        }
    }

    /// Whether a slot holds an object.
    pub(crate) fn is_full(&self, heap: &Heap, root: u32) -> bool
        requires { IsPlaced self.now heap.now }
        ensures { result ≡ is_some ((seen_if self.now.types heap.now).kind root) }
    {
        match &self.types {
            None => heap.root_is(root),
            Some(_) => false,
        }
    }

    /// Whether the object in a slot is pinned.
    pub(crate) fn is_pinned(&self, heap: &Heap, root: u32) -> bool
        requires { IsPlaced self.now heap.now }
        ensures { result ≡ (seen_if self.now.types heap.now).is_pinned root }
    {
        match &self.types {
            None => heap.is_pinned(root),
            Some(_) => false,
        }
    }

    /// Whether the object in a slot is registered, or waits for its queue or in it.
    pub(crate) fn was_registered(&self, heap: &Heap, root: u32) -> bool
        requires { IsPlaced self.now heap.now }
        ensures { result ≡ (seen_if self.now.types heap.now).was_registered root }
    {
        match &self.types {
            None => heap.was_registered(root),
            Some(_) => false,
        }
    }

    /// Whether the object in a slot has a P link.
    pub(crate) fn has_p_link(&self, heap: &Heap, root: u32) -> bool
        requires { IsPlaced self.now heap.now }
        ensures { result ≡ (seen_if self.now.types heap.now).has_p_link root }
    {
        match &self.types {
            None => heap.has_p_link(root),
            Some(_) => false,
        }
    }

    /// The state of the structure of a number.
    pub(crate) fn struct_state(&self, heap: &Heap, number: u32) -> StructState
        requires { IsPlaced self.now heap.now }
        ensures { result ≡ (seen_if self.now.types heap.now).structure number }
    {
        match &self.types {
            None => heap.struct_state(number),
            Some(_) => StructState::Absent,
        }
    }
}
