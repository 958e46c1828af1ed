//! Collections: minor collections, blocks, cycles, and the room for a birth.
ghost use Rattle.std.specs.Prelude.{◌≡◌, ◌≤◌, true, false, OnOk, OnErr};
ghost use Rattle.text_model.specs.declared.command.Command.TheVariants.{Minor, Step, Collect};
ghost use Rattle.store_model.specs.Collections.{is_scanning as is_scanning_phase};
ghost use Rattle.heap_parts.specs.Collects.{CollectsMinor, StepsMajor};
ghost use Rattle.heap_phases.specs.Steps.{CanStep};
ghost use Rattle.collect_laws.specs.Tests.{is_step_due_in, needs_block_in, exceeds_limit_in};
ghost use Rattle.collect_laws.specs.Collections.{CollectsStep, CollectsBlock, CollectsCycle, CollectsAll, MakesNurseryRoom, MakesLimitRoom, MakesRoomFor};
ghost use Rattle.heap_core.specs.Bearing.{PartsAppend};
ghost use Rattle.heap_core.specs.Commands.{AreStanding};
ghost use Rattle.heap_core.specs.Room.{EndsRoom, IsCollecting};

use crate::fault::HeapFault;
use heap_parts::Parts;
use heap_phases::Phases;
use minor_collect::{Lists, minor};
use std::alloc::{AllocError, Global};
use text_model::{Line, Phase};

/// What collections work with besides the parts of a heap. The room of the lists is kept from one collection to the next.
#[derive(Drop)]
pub(crate) struct Collector {
    lists: Lists,
    phases: Phases,
    /// The lines of the collections of a call, until they are done.
    lines: Vec<Line>,
}

impl Collector {
    /// Empty lists. It does not allocate.
    pub(crate) fn new(alloc: Global) -> Self {
        Collector {
            lists: Lists::new(alloc),
            phases: Phases::new(alloc),
            lines: Vec::new(alloc),
        }
    }
}

/// A minor collection, whose lines are appended. The error is out of memory: the parts are spent then, and no line is appended.
pub(crate) fn collect_minor(
    parts: &mut Parts,
    collector: &mut Collector,
    out: &mut Vec<Line>,
) -> Result<(), AllocError>
    requires { AreStanding parts.old }
    ensures does { OnOk result (PartsAppend parts.old parts.new Minor out.old.items out.new.items) }
    ensures err_out { OnErr result (out.new.items ≡ out.old.items) }
{
    collector.lines.clear();
    make_minor(parts, collector)?;
    out.append(&mut collector.lines)
}

/// A minor collection and a major step, in the same way.
pub(crate) fn collect_step(
    parts: &mut Parts,
    collector: &mut Collector,
    out: &mut Vec<Line>,
) -> Result<(), AllocError>
    requires { AreStanding parts.old }
    ensures does { OnOk result (PartsAppend parts.old parts.new Step out.old.items out.new.items) }
    ensures err_out { OnErr result (out.new.items ≡ out.old.items) }
{
    collector.lines.clear();
    make_block(parts, collector)?;
    out.append(&mut collector.lines)
}

/// A whole collection, in the same way: the rest of the cycle that runs, if one does, and then a whole one.
pub(crate) fn collect_all(
    parts: &mut Parts,
    collector: &mut Collector,
    out: &mut Vec<Line>,
) -> Result<(), AllocError>
    requires { AreStanding parts.old }
    ensures does { OnOk result (PartsAppend parts.old parts.new Collect out.old.items out.new.items) }
    ensures err_out { OnErr result (out.new.items ≡ out.old.items) }
{
    collector.lines.clear();
    make_cycles(parts, collector)?;
    out.append(&mut collector.lines)
}

/// The collections that come before a birth of so many words, whose lines are appended: a block where the nursery has no room
/// for it, and a whole collection where it would exceed the limit.
///
/// `Spent` comes where memory ran out inside a collection: the parts are spent then, and no line is appended. `HeapLimit` comes
/// where the birth exceeds the limit also after a whole collection, whose lines are appended then too. After `OutOfMemory` the
/// parts stand where the collections led.
pub(crate) fn make_room(
    parts: &mut Parts,
    collector: &mut Collector,
    words: u64,
    out: &mut Vec<Line>,
) -> Result<(), HeapFault>
    requires standing { AreStanding parts.old }
    requires few { words ≤ 16777219 }
    ensures { EndsRoom words parts.old parts.new out.old.items out.new.items result }
{
    collector.lines.clear();
    if make_collections(parts, collector, words).is_err() {
        return Err(HeapFault::Spent);
    }
    if out.append(&mut collector.lines).is_err() {
        return Err(HeapFault::OutOfMemory);
    }
    if exceeds_limit(parts, words) {
        return Err(HeapFault::HeapLimit {
            counted: parts.counted_words(),
            request: words,
            limit: parts.settings.limit,
        });
    }
    Ok(())
}

/// The collections that come before a birth of so many words. The error is out of memory: one was due then, and the parts are spent.
fn make_collections(
    parts: &mut Parts,
    collector: &mut Collector,
    words: u64,
) -> Result<(), AllocError>
    requires standing { AreStanding parts.old }
    requires few { words ≤ 16777219 }
    ensures makes { OnOk result (MakesRoomFor words parts.old parts.new collector.old.lines.items collector.new.lines.items) }
    ensures due { OnErr result (IsCollecting words parts.old) }
{
    make_nursery_room(parts, collector, words)?;
    make_limit_room(parts, collector, words)
}

/// A block, where the nursery has no room for so many words.
fn make_nursery_room(
    parts: &mut Parts,
    collector: &mut Collector,
    words: u64,
) -> Result<(), AllocError>
    requires standing { AreStanding parts.old }
    requires few { words ≤ 16777219 }
    ensures makes { OnOk result (MakesNurseryRoom words parts.old parts.new collector.old.lines.items collector.new.lines.items) }
    ensures due { OnErr result (needs_block_in parts.old words ≡ true) }
    ensures same { needs_block_in parts.old words ≡ false → parts.new ≡ parts.old }
{
    if needs_block(parts, words) {
        return make_due_block(parts, collector);
    }
    Ok(())
}

/// A whole collection, where so many words would exceed the limit.
fn make_limit_room(
    parts: &mut Parts,
    collector: &mut Collector,
    words: u64,
) -> Result<(), AllocError>
    requires standing { AreStanding parts.old }
    requires few { words ≤ 16777219 }
    ensures makes { OnOk result (MakesLimitRoom words parts.old parts.new collector.old.lines.items collector.new.lines.items) }
    ensures due { OnErr result (exceeds_limit_in parts.old words ≡ true) }
{
    if exceeds_limit(parts, words) {
        return make_cycles(parts, collector);
    }
    Ok(())
}

/// Whether a block comes before a birth of so many words.
fn needs_block(parts: &Parts, words: u64) -> bool
    requires standing { AreStanding parts.now }
    requires few { words ≤ 16777219 }
    ensures { result ≡ needs_block_in parts.now words }
{
    parts.unsettled + parts.fresh + words > parts.settings.nursery
}

/// Whether a birth of so many words would exceed the limit.
fn exceeds_limit(parts: &Parts, words: u64) -> bool
    requires standing { AreStanding parts.now }
    requires few { words ≤ 16777219 }
    ensures { result ≡ exceeds_limit_in parts.now words }
{
    parts.counted_words() + words > parts.settings.limit
}

/// Whether a major step is due: a cycle runs, or the old words have reached the threshold.
fn is_step_due(parts: &Parts) -> bool
    ensures { result ≡ is_step_due_in parts.now }
{
    !is_scanning(parts) || parts.old_words >= parts.threshold
}

/// Whether no cycle runs.
fn is_scanning(parts: &Parts) -> bool
    ensures { result ≡ is_scanning_phase parts.now.phase }
{
    match parts.phase {
        Phase::Scanning => true,
        Phase::Marking | Phase::Sweeping | Phase::Finalizing => false,
    }
}

/// A minor collection, whose lines are kept.
fn make_minor(parts: &mut Parts, collector: &mut Collector) -> Result<(), AllocError>
    requires { AreStanding parts.old }
    ensures { OnOk result (CollectsMinor parts.old parts.new collector.old.lines.items collector.new.lines.items) }
{
    let _end = minor(parts, &mut collector.lists, &mut collector.lines)?;
    Ok(())
}

/// A major step, whose lines are kept.
fn make_step(parts: &mut Parts, collector: &mut Collector) -> Result<(), AllocError>
    requires { CanStep parts.old }
    ensures { OnOk result (StepsMajor parts.old parts.new collector.old.lines.items collector.new.lines.items) }
{
    let _end = collector.phases.step(parts, &mut collector.lines)?;
    Ok(())
}

/// A minor collection and a major step.
fn make_block(parts: &mut Parts, collector: &mut Collector) -> Result<(), AllocError>
    requires { AreStanding parts.old }
    ensures { OnOk result (CollectsStep parts.old parts.new collector.old.lines.items collector.new.lines.items) }
{
    make_minor(parts, collector)?;
    make_step(parts, collector)
}

/// A minor collection, and a major step where one is due.
fn make_due_block(parts: &mut Parts, collector: &mut Collector) -> Result<(), AllocError>
    requires { AreStanding parts.old }
    ensures { OnOk result (CollectsBlock parts.old parts.new collector.old.lines.items collector.new.lines.items) }
{
    make_minor(parts, collector)?;
    if is_step_due(parts) {
        return make_step(parts, collector);
    }
    Ok(())
}

/// Blocks up to the first major step that ends a cycle.
fn make_cycle(parts: &mut Parts, collector: &mut Collector) -> Result<(), AllocError>
    requires { AreStanding parts.old }
    ensures { OnOk result (CollectsCycle parts.old parts.new collector.old.lines.items collector.new.lines.items) }
{
    make_block(parts, collector)?;
    'cycle: while !is_scanning(parts) {
        make_block(parts, collector)?;
    }
    Ok(())
}

/// A whole collection: the rest of the cycle that runs, if one does, and then a whole one.
fn make_cycles(parts: &mut Parts, collector: &mut Collector) -> Result<(), AllocError>
    requires { AreStanding parts.old }
    ensures { OnOk result (CollectsAll parts.old parts.new collector.old.lines.items collector.new.lines.items) }
{
    if is_scanning(parts) {
        return make_cycle(parts, collector);
    }
    make_cycle(parts, collector)?;
    make_cycle(parts, collector)
}
