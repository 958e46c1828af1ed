//! A minor collection, whole.

ghost use Rattle.std.specs.Prelude.{◌≡◌, ◌+◌, ◌++◌, ◌<◌, ◌^◌, [], ◌∷◌, length, map, OnOk, IfOk};
ghost use Rattle.object_model.specs.Sets.{is_in};
ghost use Rattle.store_model.specs.Links.{cut_links, link_ends};
ghost use Rattle.text_model.specs.declared.line.Line.TheVariants.{MinorDone, Cleared, Destroyed, LinkCut};
ghost use Rattle.store_model.specs.Store.{Store};
ghost use Rattle.heap_parts.specs.StandsFor.{PartsStandButYoung};
ghost use Rattle.text_model.specs.declared.line.Phase.TheVariants.{Marking};
ghost use Rattle.minor_collect.specs.Calls.{CanBegin, Survived, Stage, Spot, Middle};
ghost use Rattle.heap_parts.specs.Collects.{CollectsMinor};
ghost use Rattle.minor_collect.specs.Counts.{CountsSurvivors};
ghost use Rattle.minor_collect.specs.Minor.{CanCollect, Took, Separates, Closes};
ghost use Rattle.minor_collect.specs.Drops.{CanGiveThen, Drops};
ghost use Rattle.minor_collect.specs.WeakPass.{CanPassWeaks, PassesWeaks};
ghost use Rattle.minor_collect.specs.Remade.{CanRemake, Remakes};
ghost use Rattle.minor_collect.specs.Vanished.{IsMidway, FindsVanished};
ghost use Rattle.minor_collect.specs.Queues.{Queues, CanQueueSpans};

use crate::ending::{give_homes_back, list_dead, list_destroyed, pinned_ranges, queue_written};
use crate::items::drain;
use crate::roots::follow_roots;
use crate::spans::{drain_spans, order_spans, take_all};
use crate::telling::tell_loss;
use crate::work::{Lists, Moving};
use heap_parts::Parts;
use remember_cards::Span;
use std::alloc::AllocError;
use text_model::{Line, LinkEnd, Phase};

/// How a minor collection ended: what survived and was not pinned is settled, and what did not survive vanished.
#[derive(Clone, Copy, PartialEq, Eq, Debug)]
pub struct MinorEnd {
    /// How many objects moved out of the nursery.
    pub settled: u64,
    /// The words of those, each of 8 bytes.
    pub settled_words: u64,
    /// How many objects of the nursery are gone.
    pub vanished: u64,
}

/// A minor collection. The objects of the nursery that roots, registered objects, P links or remembered references lead to
/// move out of it, but for the pinned ones, which stay where they are; all others are gone. Targets of weak objects follow, or are
/// cleared where they are gone. These are PyPy's rules; the lines of all that, which are appended, are this project's own. What
/// the lists hold before does not matter. The cost is that of the words in the nursery, the slots and what is remembered.
///
/// The error is out of memory: the parts are spent then, and some of the lines may be appended.
pub fn minor(
    parts: &mut Parts,
    lists: &mut Lists,
    events: &mut Vec<Line>,
) -> Result<MinorEnd, AllocError>
    requires can { CanCollect parts.old }
    ensures collects { OnOk result (CollectsMinor parts.old parts.new events.old.items events.new.items) }
    ensures counts { (store : Store) (stands : PartsStandButYoung parts.old store) → IfOk result (CountsSurvivors (record { start = parts.old; store = store; stands = stands })) }
    ensures fresh { OnOk result (parts.new.fresh ≡ 0) }
{
    lists.clear();
    separate(parts, lists)?;
    let vanished = drop_vanished(parts, lists, events)?;
    let moving = &lists.moving;
    close_nursery(parts, moving.words, &mut lists.places, &mut lists.pinned)?;
    Ok(MinorEnd {
        settled: moving.objects,
        settled_words: moving.words,
        vanished,
    })
}

/// Moves what survives out of the nursery, lists what is gone, and queues for marking what written objects refer to. The lists
/// are empty before. The error is out of memory.
fn separate(parts: &mut Parts, lists: &mut Lists) -> Result<(), AllocError>
    requires begin { CanBegin parts.old lists.old.moving }
    requires spans { lists.old.spans.items ≡ [] }
    requires registered { lists.old.registered.items ≡ [] }
    requires forced { lists.old.forced.items ≡ [] }
    requires dead { lists.old.dead.items ≡ [] }
    requires destroyed { lists.old.destroyed.items ≡ [] }
    ensures separates { OnOk result (Separates parts.old parts.new lists.new.moving lists.new.dead.items lists.new.destroyed.items) }
    ensures cleared { lists.new.cleared.items ≡ lists.old.cleared.items }
    ensures ends { lists.new.ends.items ≡ lists.old.ends.items }
    ensures places { lists.new.places.items ≡ lists.old.places.items }
    ensures pinned { lists.new.pinned.items ≡ lists.old.pinned.items }
{
    move_survivors(
        parts,
        &mut lists.moving,
        &mut lists.spans,
        &mut lists.registered,
        &mut lists.forced,
    )?;
    find_vanished(parts, &mut lists.dead, &mut lists.destroyed)?;
    queue_visited(parts, &mut lists.spans)
}

/// Moves all that survives and is not pinned out of the nursery. The lists are empty before. The error is out of memory.
fn move_survivors(
    parts: &mut Parts,
    moving: &mut Moving,
    spans: &mut Vec<Span>,
    registered: &mut Vec<u64>,
    forced: &mut Vec<u64>,
) -> Result<(), AllocError>
    requires begin { CanBegin parts.old moving.old }
    requires spans { spans.old.items ≡ [] }
    requires registered { registered.old.items ≡ [] }
    requires forced { forced.old.items ≡ [] }
    ensures survived { (store : Store) (stands : PartsStandButYoung parts.old store) → OnOk result (Survived (record { start = parts.old; store = store; stands = stands }) parts.new moving.new) }
    ensures took { OnOk result (Took parts.old spans.new.items) }
{
    take_all(parts, spans)?;
    follow_roots(parts, moving, registered, forced)?;
    drain_spans(parts, moving, spans)?;
    drain(parts, moving)
}

/// Lists what is gone, and the births of what of it has a destructor. The lists are empty before. The error is out of memory.
fn find_vanished(
    parts: &Parts,
    dead: &mut Vec<u64>,
    destroyed: &mut Vec<u64>,
) -> Result<(), AllocError>
    requires midway { IsMidway parts.now }
    requires dead { dead.old.items ≡ [] }
    requires destroyed { destroyed.old.items ≡ [] }
    ensures { (stage : Stage) (spot : Spot) → Middle stage parts.now spot [] → OnOk result (FindsVanished stage spot parts.now dead.new.items destroyed.new.items) }
{
    list_dead(parts, dead)?;
    list_destroyed(parts, dead, destroyed)
}

/// Queues for marking, where it goes on, what the items of visited objects refer to that were written. The error is out of memory.
fn queue_visited(parts: &mut Parts, spans: &mut [Span]) -> Result<(), AllocError>
    requires { parts.old.phase ≡ Marking → CanQueueSpans parts.old spans.old }
    ensures marking { parts.old.phase ≡ Marking → OnOk result (Queues parts.old parts.new spans.old) }
    ensures other { (parts.old.phase ≡ Marking → ⊥) → parts.new ≡ parts.old }
{
    if parts.phase != Phase::Marking {
        return Ok(());
    }
    queue_in_order(parts, spans)
}

/// Queues for marking what the items of these spans refer to, those of each object from the first item on. The error is out of memory.
fn queue_in_order(parts: &mut Parts, spans: &mut [Span]) -> Result<(), AllocError>
    requires { CanQueueSpans parts.old spans.old }
    ensures { OnOk result (Queues parts.old parts.new spans.old) }
{
    order_spans(spans);
    queue_written(parts, spans)
}

/// Lets go of all that is gone: targets, homes and links. Tells how much it is, and appends the lines. The error is out of memory.
fn drop_vanished(
    parts: &mut Parts,
    lists: &mut Lists,
    events: &mut Vec<Line>,
) -> Result<u64, AllocError>
    requires weaks { CanPassWeaks parts.old }
    requires gives { CanGiveThen parts.old lists.old.dead.items lists.old.cleared.items }
    ensures drops { OnOk result (Drops parts.old parts.new lists.old.dead.items lists.old.cleared.items lists.new.cleared.items) }
    ensures lines { OnOk result (events.new.items ≡ (((events.old.items ++ MinorDone lists.old.moving.objects (length lists.old.dead.items) ∷ []) ++ map (λ birth. Cleared birth) lists.new.cleared.items) ++ map (λ birth. Destroyed birth) lists.old.destroyed.items) ++ map (λ end. LinkCut end) lists.new.ends.items) }
    ensures ends { OnOk result (lists.new.ends.items ≡ lists.old.ends.items ++ link_ends (λ object. is_in object lists.old.dead.items) parts.old.links.structs) }
    ensures moving { lists.new.moving ≡ lists.old.moving }
    ensures places { lists.new.places.items ≡ lists.old.places.items }
    ensures pinned { lists.new.pinned.items ≡ lists.old.pinned.items }
    ensures vanished { IfOk result (λ vanished. vanished ≡ length lists.old.dead.items) }
{
    pass_weaks(parts, &mut lists.cleared)?;
    give_homes_back(parts, &lists.dead);
    end_links(parts, &lists.dead, &mut lists.ends)?;
    tell_minor(lists, events)?;
    Ok(lists.dead.len() as u64)
}

/// Ends the links with the objects at these places, which are gone, and appends how. The error is out of memory.
fn end_links(parts: &mut Parts, dead: &[u64], ends: &mut Vec<LinkEnd>) -> Result<(), AllocError>
    ensures cut { OnOk result (parts.new ≡ record parts.old { links = cut_links (λ object. is_in object dead.now) parts.old.links }) }
    ensures ends { OnOk result (ends.new.items ≡ ends.old.items ++ link_ends (λ object. is_in object dead.now) parts.old.links.structs) }
{
    parts.links.cut_dead(dead, ends)
}

/// Appends the lines of a minor collection: what moved and what is gone, and then its targets, destructors and links. The error is
/// out of memory.
fn tell_minor(lists: &Lists, events: &mut Vec<Line>) -> Result<(), AllocError>
    ensures { OnOk result (events.new.items ≡ (((events.old.items ++ MinorDone lists.now.moving.objects (length lists.now.dead.items) ∷ []) ++ map (λ birth. Cleared birth) lists.now.cleared.items) ++ map (λ birth. Destroyed birth) lists.now.destroyed.items) ++ map (λ end. LinkCut end) lists.now.ends.items) }
{
    events.push(Line::MinorDone {
        settled: lists.moving.objects,
        vanished: lists.dead.len() as u64,
    })?;
    tell_loss(&lists.cleared, &lists.destroyed, &lists.ends, events)
}

/// Lets targets follow, or clears them where they are gone, and appends the births of the weak objects that lose theirs, by rising
/// birth. Weak objects that are gone are listed no longer. The error is out of memory.
fn pass_weaks(parts: &mut Parts, cleared: &mut Vec<u64>) -> Result<(), AllocError>
    requires { CanPassWeaks parts.old }
    ensures { OnOk result (PassesWeaks parts.old parts.new cleared.old.items cleared.new.items) }
{
    parts
        .weaks
        .after_minor(&mut parts.space, &parts.types, &parts.nursery, cleared)
}

/// Makes the nursery anew around the pinned objects. The lists are scratch, and empty before. The error is out of memory.
fn remake_nursery(
    parts: &mut Parts,
    places: &mut Vec<u64>,
    pinned: &mut Vec<(u64, u64)>,
) -> Result<(), AllocError>
    requires can { CanRemake parts.old }
    requires no_places { places.old.items ≡ [] }
    requires none { pinned.old.items ≡ [] }
    ensures { OnOk result (Remakes parts.old parts.new) }
{
    parts.unsettled = pinned_ranges(parts, places, pinned)?;
    parts.nursery.reset(pinned);
    parts.gapped = !parts.pins.is_empty();
    Ok(())
}

/// Makes the nursery anew, and adds the words that moved to those outside it, where nothing was born since. The lists are scratch,
/// and empty before. The error is out of memory.
fn close_nursery(
    parts: &mut Parts,
    words: u64,
    places: &mut Vec<u64>,
    pinned: &mut Vec<(u64, u64)>,
) -> Result<(), AllocError>
    requires can { CanRemake parts.old }
    requires room { parts.old.old_words + words < 2 ^ 64 }
    requires no_places { places.old.items ≡ [] }
    requires none { pinned.old.items ≡ [] }
    ensures { OnOk result (Closes parts.old parts.new words) }
{
    remake_nursery(parts, places, pinned)?;
    parts.old_words += words;
    parts.fresh = 0;
    Ok(())
}
