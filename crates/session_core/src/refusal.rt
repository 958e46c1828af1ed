//! Why an item is refused, if it is: the checks in their order.
ghost use Rattle.std.specs.Prelude.{◌≡◌, ◌+◌, [], ◌∷◌, ◌++◌, Some, is_none, length, option_map, false};
ghost use Rattle.type_table.specs.Table.{value_at};
ghost use Rattle.text_model.specs.Range.{is_above};
ghost use Rattle.object_model.specs.Sets.{is_in};
ghost use Rattle.object_model.specs.Shapes.{is_weak_shape};
ghost use Rattle.store_model.specs.Checks.{first_reason, setting_checks, type_checks, slots_checks, found_checks, born_checks, int_checks, ref_checks, copy_checks};
ghost use Rattle.store_model.specs.StructChecks.{weak_checks, unpin_checks, queue_checks, register_checks, link_checks, struct_checks};
ghost use Rattle.store_model.specs.Refusal.{checks_in_range, command_checks};
ghost use Rattle.heap_core.specs.Found.{kind_of};
ghost use Rattle.session_core.specs.Standing.{IsPlaced, setup_of, seen_if, types_in, refusal_of};
ghost use Rattle.session_core.specs.Finding.{kind_for, kind_by, source_kind_for, source_kind_by, type_for, type_by};

use crate::checks::{
    array_refusal, copy_refusal, dec_refusal, fixed_refusal, inc_refusal, int_refusal,
    link_refusal, queue_refusal, ref_refusal, slot_refusal, slots_refusal, struct_refusal,
    weak_refusal,
};
use crate::session::Session;
use crate::settings::is_outside;
use crate::told::Looked;
use heap_core::{Heap, kind_found};
use store_model::{Command, Item, Kind, Reason, Shape, TypeInfo};
use type_table::MAX_TYPES;

impl Session {
    /// The first reason for which the program refuses an item, if it does. `looked` tells of what it works on.
    #[tactic(auto, unfolding(store_model::specs::Refusal::refusal_seen))]
    pub(crate) fn refusal(&self, heap: &Heap, item: &Item, looked: &Looked) -> Option<Reason>
        requires placed { IsPlaced self.now heap.now }
        requires kind { option_map kind_of looked.now.found ≡ kind_by (seen_if self.now.types heap.now) item.now }
        requires source { option_map kind_of looked.now.source ≡ source_kind_by (seen_if self.now.types heap.now) item.now }
        requires info { looked.now.info ≡ type_by (setup_of self.now heap.now) item.now }
        ensures { result ≡ refusal_of self.now heap.now item.now }
    {
        match *item {
            Item::Blank => None,
            Item::Setting { name, value } => self.setting_refusal(name, value),
            Item::TypeDef { id, .. } => self.type_refusal(heap, id),
            Item::Command(command) => self.command_refusal(heap, &command, looked),
        }
    }

    fn setting_refusal(&self, name: u8, value: u64) -> Option<Reason>
        ensures { result ≡ first_reason (setting_checks (is_none self.now.types) (is_in name self.now.names) name value) }
    {
        if self.types.is_none() {
            return Some(Reason::Late);
        }
        if self.names.contains(&name) {
            return Some(Reason::SetTwice);
        }
        if is_outside(name, value) {
            return Some(Reason::SetRange);
        }
        None
    }

    fn type_refusal(&self, heap: &Heap, id: u16) -> Option<Reason>
        requires { IsPlaced self.now heap.now }
        ensures { let types = types_in self.now.types heap.now in
            result ≡ first_reason (type_checks (is_none self.now.types) (value_at types id) (length types)) }
    {
        let Some(types) = &self.types else {
            return Some(Reason::Late);
        };
        if types.get(id).is_some() {
            return Some(Reason::TypeTwice);
        }
        if types.len() >= MAX_TYPES {
            return Some(Reason::TooManyTypes);
        }
        None
    }

    /// The first reason for which a command is refused, if it is.
    fn command_refusal(&self, heap: &Heap, command: &Command, looked: &Looked) -> Option<Reason>
        requires placed { IsPlaced self.now heap.now }
        requires kind { option_map kind_of looked.now.found ≡ kind_for (seen_if self.now.types heap.now) command.now }
        requires source { option_map kind_of looked.now.source ≡ source_kind_for (seen_if self.now.types heap.now) command.now }
        requires info { looked.now.info ≡ type_for (setup_of self.now heap.now) command.now }
        ensures { result ≡ first_reason (command_checks (setup_of self.now heap.now) (seen_if self.now.types heap.now) command.now) }
    {
        if command.is_above() {
            return Some(Reason::Range);
        }
        let kind = kind_found(looked.found);
        let source = kind_found(looked.source);
        self.refusal_in_range(heap, command, kind, source, looked.info)
    }

    /// The same for a command none of whose numbers is out of range.
    fn refusal_in_range(
        &self,
        heap: &Heap,
        command: &Command,
        kind: Option<Kind>,
        source: Option<Kind>,
        info: Option<TypeInfo>,
    ) -> Option<Reason>
        requires placed { IsPlaced self.now heap.now }
        requires kind { kind ≡ kind_for (seen_if self.now.types heap.now) command.now }
        requires source { source ≡ source_kind_for (seen_if self.now.types heap.now) command.now }
        requires info { info ≡ type_for (setup_of self.now heap.now) command.now }
        requires in_range { is_above command.now ≡ false }
        ensures { result ≡ first_reason (checks_in_range (setup_of self.now heap.now) (seen_if self.now.types heap.now) command.now) }
    {
        let roots = self.settings.roots;
        match *command {
            Command::NewFixed { root, .. } => fixed_refusal(roots, root, info),
            Command::NewArray { root, .. } => array_refusal(roots, root, info),
            Command::NewWeak { root, target, .. } => {
                self.new_weak_refusal(heap, root, info, target)
            }
            Command::Put { root, item, .. } => self.item_refusal(root, kind, item),
            Command::Get { root, item } => self.item_refusal(root, kind, item),
            Command::Link { root, item, from } => self.reference_refusal(root, from, kind, item),
            Command::Load { to, root, item } => self.reference_refusal(to, root, kind, item),
            Command::CopyRefs {
                root,
                item,
                from,
                from_item,
                count,
            } => self.copies_refusal(root, from, kind, source, item + count, from_item + count),
            Command::MoveRoot { to, from } => slots_refusal(roots, to, from),
            Command::DropRoot { root } => slot_refusal(roots, root),
            Command::Same { a, b } => slots_refusal(roots, a, b),
            Command::Ident { root } => self.object_refusal(heap, root),
            Command::Hash { root } => self.object_refusal(heap, root),
            Command::Place { root } => self.object_refusal(heap, root),
            Command::Pin { root } => self.object_refusal(heap, root),
            Command::Unpin { root } => self.unpin_refusal(heap, root),
            Command::Deref { to, root } => self.deref_refusal(to, root, kind),
            Command::Register { root, queue } => self.register_refusal(heap, root, queue),
            Command::NextFinal { to, queue } => self.next_refusal(to, queue),
            Command::MakeLink {
                p,
                number,
                root,
                ..
            } => self.make_link_refusal(heap, p, number, root),
            Command::Inc { number } => inc_refusal(self.struct_state(heap, number)),
            Command::Dec { number } => dec_refusal(self.struct_state(heap, number)),
            Command::Count { number } => struct_refusal(self.struct_state(heap, number)),
            Command::FromObj { root } => self.object_refusal(heap, root),
            Command::ToObj { to, number } => self.to_obj_refusal(heap, to, number),
            Command::NextDead | Command::Minor | Command::Step | Command::Collect | Command::Used =>
                None,
        }
    }

    /// Of a slot that must hold something.
    fn object_refusal(&self, heap: &Heap, root: u32) -> Option<Reason>
        requires { IsPlaced self.now heap.now }
        ensures { result ≡ first_reason (slots_checks self.now.settings.roots (root ∷ []) ++ found_checks ((seen_if self.now.types heap.now).kind root)) }
    {
        if u64::from(root) >= self.settings.roots {
            return Some(Reason::NoRoot);
        }
        if self.is_full(heap, root) {
            return None;
        }
        Some(Reason::NilRoot)
    }

    /// Of a whole number of the object in a slot, which is of this kind.
    fn item_refusal(&self, root: u32, kind: Option<Kind>, item: u64) -> Option<Reason>
        ensures { result ≡ first_reason (slots_checks self.now.settings.roots (root ∷ []) ++ int_checks kind item) }
    {
        if u64::from(root) >= self.settings.roots {
            return Some(Reason::NoRoot);
        }
        int_refusal(kind, item)
    }

    /// Of a reference of an object of this kind, where a command names two slots.
    fn reference_refusal(
        &self,
        first: u32,
        second: u32,
        kind: Option<Kind>,
        item: u64,
    ) -> Option<Reason>
        ensures { result ≡ first_reason (slots_checks self.now.settings.roots (first ∷ second ∷ []) ++ ref_checks kind item) }
    {
        if let Some(reason) = slots_refusal(self.settings.roots, first, second) {
            return Some(reason);
        }
        ref_refusal(kind, item)
    }

    /// Of a copy of references, up to these ends of the two ranges of items.
    fn copies_refusal(
        &self,
        root: u32,
        from: u32,
        kind: Option<Kind>,
        source: Option<Kind>,
        end: u64,
        from_end: u64,
    ) -> Option<Reason>
        ensures { result ≡ first_reason (slots_checks self.now.settings.roots (root ∷ from ∷ []) ++ copy_checks kind source end from_end) }
    {
        if let Some(reason) = slots_refusal(self.settings.roots, root, from) {
            return Some(reason);
        }
        copy_refusal(kind, source, end, from_end)
    }

    /// Of an object that is to be unpinned.
    fn unpin_refusal(&self, heap: &Heap, root: u32) -> Option<Reason>
        requires { IsPlaced self.now heap.now }
        ensures { let seen = seen_if self.now.types heap.now in
            result ≡ first_reason (slots_checks self.now.settings.roots (root ∷ []) ++ (found_checks (seen.kind root) ++ unpin_checks (seen.is_pinned root))) }
    {
        if let Some(reason) = self.object_refusal(heap, root) {
            return Some(reason);
        }
        if !self.is_pinned(heap, root) {
            return Some(Reason::NotPinned);
        }
        None
    }

    /// Of a weak object whose target is asked for.
    fn deref_refusal(&self, to: u32, root: u32, kind: Option<Kind>) -> Option<Reason>
        ensures { result ≡ first_reason (slots_checks self.now.settings.roots (to ∷ root ∷ []) ++ weak_checks kind) }
    {
        if let Some(reason) = slots_refusal(self.settings.roots, to, root) {
            return Some(reason);
        }
        weak_refusal(kind)
    }

    /// Of an object that is to be registered.
    fn register_refusal(&self, heap: &Heap, root: u32, queue: u64) -> Option<Reason>
        requires { IsPlaced self.now heap.now }
        ensures { let seen = seen_if self.now.types heap.now in
            result ≡ first_reason (slots_checks self.now.settings.roots (root ∷ []) ++ (found_checks (seen.kind root)
            ++ (queue_checks self.now.settings.queues queue ++ register_checks (seen.was_registered root)))) }
    {
        if let Some(reason) = self.object_refusal(heap, root) {
            return Some(reason);
        }
        if let Some(reason) = queue_refusal(self.settings.queues, queue) {
            return Some(reason);
        }
        if self.was_registered(heap, root) {
            return Some(Reason::Registered);
        }
        None
    }

    /// Of a slot for what comes next from a queue.
    fn next_refusal(&self, to: u32, queue: u64) -> Option<Reason>
        ensures { result ≡ first_reason (slots_checks self.now.settings.roots (to ∷ []) ++ queue_checks self.now.settings.queues queue) }
    {
        if u64::from(to) >= self.settings.roots {
            return Some(Reason::NoRoot);
        }
        queue_refusal(self.settings.queues, queue)
    }

    /// Of a new link with the object in a slot.
    fn make_link_refusal(&self, heap: &Heap, p: bool, number: u32, root: u32) -> Option<Reason>
        requires { IsPlaced self.now heap.now }
        ensures { let seen = seen_if self.now.types heap.now in
            result ≡ first_reason (slots_checks self.now.settings.roots (root ∷ []) ++ (found_checks (seen.kind root)
            ++ link_checks (seen.structure number) p (seen.has_p_link root))) }
    {
        if let Some(reason) = self.object_refusal(heap, root) {
            return Some(reason);
        }
        link_refusal(
            self.struct_state(heap, number),
            p,
            self.has_p_link(heap, root),
        )
    }

    /// Of a slot for the object of a structure.
    fn to_obj_refusal(&self, heap: &Heap, to: u32, number: u32) -> Option<Reason>
        requires { IsPlaced self.now heap.now }
        ensures { result ≡ first_reason (slots_checks self.now.settings.roots (to ∷ []) ++ struct_checks ((seen_if self.now.types heap.now).structure number)) }
    {
        if u64::from(to) >= self.settings.roots {
            return Some(Reason::NoRoot);
        }
        struct_refusal(self.struct_state(heap, number))
    }

    /// Of the birth of a weak object for what a slot holds.
    fn new_weak_refusal(
        &self,
        heap: &Heap,
        root: u32,
        found: Option<TypeInfo>,
        target: u32,
    ) -> Option<Reason>
        requires { IsPlaced self.now heap.now }
        ensures { result ≡ first_reason (slots_checks self.now.settings.roots (root ∷ target ∷ [])
            ++ (found_checks ((seen_if self.now.types heap.now).kind target)
            ++ born_checks found is_weak_shape)) }
    {
        if let Some(reason) = slots_refusal(self.settings.roots, root, target) {
            return Some(reason);
        }
        if !self.is_full(heap, target) {
            return Some(Reason::NilRoot);
        }
        let Some(info) = found else {
            return Some(Reason::NoType);
        };
        match info.shape {
            Shape::Weak => None,
            _ => Some(Reason::WrongShape),
        }
    }
}
