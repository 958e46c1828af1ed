//! The parts of a heap that starts, a few at a time.
ghost use Rattle.std.specs.Prelude.{◌≡◌, ◌*◌, [], replicate, IfOk};
ghost use Rattle.std.specs.FinMap as map_of;
ghost use Rattle.heap_space.specs.Memory.{fresh_memory};
ghost use Rattle.nursery_gaps.specs.Nursery.{unused};
ghost use Rattle.object_model.specs.SettingRanges.{AreInRange};
ghost use Rattle.object_model.specs.Setup.{small_words};
ghost use Rattle.old_space.specs.HasBlocks.{page_size, HasBlocks, greatest_small};
ghost use Rattle.finalizer_order.specs.Finalizers.{no_finalizers};
ghost use Rattle.remember_cards.specs.Remembered.{nothing_held};
ghost use Rattle.remember_cards.specs.Remembering.{remembered_by};

use crate::pins::Pins;
use finalizer_order::Finals;
use heap_space::Space;
use mark_steps::Gray;
use nursery_gaps::Nursery;
use object_model::Settings;
use old_space::Old;
use rawref_links::Links;
use remember_cards::Remember;
use shadow_ids::Shadows;
use std::alloc::{AllocError, Global};
use weak_lists::Weaks;

/// The parts of a heap that starts, but its types.
#[derive(Drop)]
pub(crate) struct Beginning {
    pub words: (Space, Nursery, Old),
    pub lists: (Remember, Weaks, Finals),
    pub tables: (Shadows, Links, Gray),
    pub slots: (Vec<u64>, Pins),
}

/// No objects, and empty slots. The error is out of memory.
pub(crate) fn begin(alloc: Global, settings: &Settings) -> Result<Beginning, AllocError>
    requires { AreInRange settings.now }
    ensures space { IfOk result (λ made. made.words.0 ≡ fresh_memory settings.now.nursery (settings.now.arena * settings.now.page)) }
    ensures nursery { IfOk result (λ made. made.words.1 ≡ unused settings.now.nursery settings.now.pins) }
    ensures empty { IfOk result (λ made. HasBlocks made.words.2 (fresh_memory settings.now.nursery (settings.now.arena * settings.now.page)) [] []) }
    ensures small { IfOk result (λ made. greatest_small made.words.2 ≡ small_words settings.now) }
    ensures page { IfOk result (λ made. page_size made.words.2 ≡ settings.now.page) }
    ensures remember { IfOk result (λ made. remembered_by made.lists.0 ≡ nothing_held settings.now.card) }
    ensures weaks { IfOk result (λ made. made.lists.1 ≡ []) }
    ensures finals { IfOk result (λ made. made.lists.2 ≡ no_finalizers settings.now.queues) }
    ensures shadows { IfOk result (λ made. made.tables.0 ≡ map_of.empty) }
    ensures links { IfOk result (λ made. made.tables.1 ≡ record { structs = []; dead = [] }) }
    ensures gray { IfOk result (λ made. made.tables.2 ≡ []) }
    ensures slots { IfOk result (λ made. made.slots.0.items ≡ replicate settings.now.roots 0) }
    ensures pins { IfOk result (λ made. made.slots.1 ≡ []) }
{
    let words = words(alloc, settings)?;
    let lists = lists(alloc, settings)?;
    let tables = tables(alloc)?;
    let slots = slots_and_pins(alloc, settings)?;
    Ok(Beginning {
        words,
        lists,
        tables,
        slots,
    })
}

/// The words, none of them used, and no block outside the nursery.
fn words(alloc: Global, settings: &Settings) -> Result<(Space, Nursery, Old), AllocError>
    requires { AreInRange settings.now }
    ensures space { IfOk result (λ made. made.0 ≡ fresh_memory settings.now.nursery (settings.now.arena * settings.now.page)) }
    ensures nursery { IfOk result (λ made. made.1 ≡ unused settings.now.nursery settings.now.pins) }
    ensures empty { IfOk result (λ made. HasBlocks made.2 (fresh_memory settings.now.nursery (settings.now.arena * settings.now.page)) [] []) }
    ensures small { IfOk result (λ made. greatest_small made.2 ≡ small_words settings.now) }
    ensures page { IfOk result (λ made. page_size made.2 ≡ settings.now.page) }
{
    let space = Space::new(alloc, settings.nursery, settings.arena * settings.page)?;
    let nursery = Nursery::new(alloc, settings.nursery, settings.pins)?;
    let old_blocks = Old::new(alloc, settings)?;
    Ok((space, nursery, old_blocks))
}

/// Nothing is remembered, weak or registered.
fn lists(alloc: Global, settings: &Settings) -> Result<(Remember, Weaks, Finals), AllocError>
    requires { AreInRange settings.now }
    ensures remember { IfOk result (λ made. remembered_by made.0 ≡ nothing_held settings.now.card) }
    ensures weaks { IfOk result (λ made. made.1 ≡ []) }
    ensures finals { IfOk result (λ made. made.2 ≡ no_finalizers settings.now.queues) }
{
    let remember = Remember::new(alloc, settings.card)?;
    let weaks = Weaks::new(alloc)?;
    let finals = Finals::new(alloc, settings.queues)?;
    Ok((remember, weaks, finals))
}

/// No home is reserved, no structure is there, and nothing is to be visited.
fn tables(alloc: Global) -> Result<(Shadows, Links, Gray), AllocError>
    ensures shadows { IfOk result (λ made. made.0 ≡ map_of.empty) }
    ensures links { IfOk result (λ made. made.1 ≡ record { structs = []; dead = [] }) }
    ensures gray { IfOk result (λ made. made.2 ≡ []) }
{
    let shadows = Shadows::new(alloc)?;
    let links = Links::new(alloc)?;
    let gray = Gray::new(alloc)?;
    Ok((shadows, links, gray))
}

/// Empty slots, and no pins with room for as many objects as may be pinned.
fn slots_and_pins(alloc: Global, settings: &Settings) -> Result<(Vec<u64>, Pins), AllocError>
    ensures slots { IfOk result (λ made. made.0.items ≡ replicate settings.now.roots 0) }
    ensures pins { IfOk result (λ made. made.1 ≡ []) }
{
    let slots = vec![in alloc; 0; settings.roots as usize]?;
    let pins = Pins::new(alloc)?;
    Ok((slots, pins))
}
