//! The parts of a started heap: words, blocks, and the lists and tables that name objects by their places.
ghost use Rattle.std.specs.Prelude.{◌≡◌, IfOk};
ghost use Rattle.type_table.specs.Table.{value_at};
ghost use Rattle.object_model.specs.SettingRanges.{AreInRange};
ghost use Rattle.parts_model.specs.Parts.{AreFresh};

use crate::empty_parts::begin;
use crate::pins::Pins;
use finalizer_order::Finals;
use heap_space::Space;
use mark_steps::Gray;
use nursery_gaps::Nursery;
use object_model::Settings;
use old_space::Old;
use rawref_links::Links;
use remember_cards::Remember;
use shadow_ids::Shadows;
use std::alloc::{AllocError, Global};
use std::collections::BTreeMap;
use std::marker::Model;
use text_model::Phase;
use type_table::{TypeInfo, TypeTable};
use weak_lists::Weaks;

/// What a started heap has. A contract sees it as plain data.
#[derive(Drop)]
pub struct Parts {
    pub settings: Settings,
    pub types: TypeTable,
    pub space: Space,
    /// The used ranges of the nursery.
    pub nursery: Nursery,
    /// The blocks outside the nursery.
    pub old_blocks: Old,
    /// The homes that are reserved for objects of the nursery.
    pub shadows: Shadows,
    /// The items that the next minor collection must look at.
    pub remember: Remember,
    pub weaks: Weaks,
    /// The objects with finalizers.
    pub finals: Finals,
    pub links: Links,
    /// What is still to be visited in this marking.
    pub gray: Gray,
    /// The place of the object in each root slot, 0 where it is empty.
    pub slots: Vec<u64>,
    /// The places of the pinned objects, each with how many times it is pinned.
    pub pins: Pins,
    pub phase: Phase,
    /// The old words at which a major step is due.
    pub threshold: u64,
    /// The next birth.
    pub next: u64,
    /// The words that were born outside the nursery since the last minor collection.
    pub fresh: u64,
    /// Whether some object was pinned when the last minor collection ended.
    pub gapped: bool,
    /// The words of the objects in the nursery.
    pub unsettled: u64,
    /// The words of the objects and husks outside it.
    pub old_words: u64,
    /// The words of each husk by its birth.
    pub husks: BTreeMap<u64, u64>,
}

impl Model for Parts {
    ghost use Rattle.std.specs.Coded.{codes};
    ghost use Rattle.parts_model.specs.Code.{old_code, homes_code};
    ghost use Rattle.remember_cards.specs.Remembering.{remembered_by};
    ghost use Rattle.finalizer_order.specs.Finalizers.{placed, placed_queues};
    ghost use Rattle.parts_model.specs.NamedFinals.{births_told};
    ghost use Rattle.parts_model.specs.Parts.{HeapParts};

    ghost Value = { HeapParts };

    ghost coded = { Prim.hlevel (codes, old_code, homes_code) };

    ghost view = { λ p. record {
      setup = record { settings = p.settings; types = p.types };
      memory = p.space;
      nursery = p.nursery;
      old_blocks = p.old_blocks;
      remembered = remembered_by p.remember;
      shadows = p.shadows;
      weaks = p.weaks;
      registered = placed p.finals.registered;
      chosen = placed p.finals.chosen;
      queues = placed_queues p.finals.queues;
      finals = births_told p.finals;
      links = p.links;
      gray = p.gray;
      slots = p.slots.items;
      pins = p.pins;
      phase = p.phase;
      threshold = p.threshold;
      next = p.next;
      fresh = p.fresh;
      gapped = p.gapped;
      unsettled = p.unsettled;
      old_words = p.old_words;
      husk_list = p.husks.entries;
    } };
}

impl Parts {
    /// No objects, and empty slots. The error is out of memory.
    pub fn new(alloc: Global, settings: &Settings, types: TypeTable) -> Result<Self, AllocError>
        requires { AreInRange settings.now }
        ensures { IfOk result (λ parts. AreFresh parts settings.now types) }
    {
        let made = begin(alloc, settings)?;
        let (space, nursery, old_blocks) = made.words;
        let (remember, weaks, finals) = made.lists;
        let (shadows, links, gray) = made.tables;
        let (slots, pins) = made.slots;
        Ok(Parts {
            settings: *settings,
            types,
            space,
            nursery,
            old_blocks,
            shadows,
            remember,
            weaks,
            finals,
            links,
            gray,
            slots,
            pins,
            phase: Phase::Scanning,
            threshold: settings.minimum,
            next: 1,
            fresh: 0,
            gapped: false,
            unsettled: 0,
            old_words: 0,
            husks: BTreeMap::new(alloc),
        })
    }

    /// The type of an id, if there is one.
    pub fn type_info(&self, id: u16) -> Option<TypeInfo>
        ensures { result ≡ value_at self.now.setup.types id }
    {
        self.types.get(id)
    }
}
