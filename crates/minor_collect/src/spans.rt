//! What the write barrier remembered.

ghost use Rattle.std.specs.Prelude.{◌≡◌, ◌+◌, ◌<◌, ◌≤◌, ℕ, [], map, not, length, slice_get, Some, IsTrue, IsSome, IfSome, IfNone, OnOk};
ghost use Rattle.std.specs.List.Sorted.{IsPermutation};
ghost use Rattle.heap_space.specs.Places.{has, word_at};
ghost use Rattle.object_model.specs.Sets.{is_in};
ghost use Rattle.remember_cards.specs.Remembered.{held_whole, has_held_cards};
ghost use Rattle.remember_cards.specs.Remembering.{remembered_by};
ghost use Rattle.remember_cards.specs.Tracking.{with_head, flag_is, drained_head};
ghost use Rattle.remember_cards.specs.Drained.{HandsOut, spans_left};
ghost use Rattle.minor_collect.specs.Calls.{Stage, Spot, Standing};
ghost use Rattle.minor_collect.specs.Spans.{CanTakeSpans, KeepsMiddle, TakesSpans, MaySpan, CanDrainSpan, DrainedSpan, CanDrainSpans, DrainedSpans, CanTakeAll, TookAll};
ghost use Rattle.object_header.specs.Words.{has_flag};
ghost use Rattle.object_header.specs.declared.flags.Flag.TheVariants.{Visited};
ghost use Rattle.heap_parts.specs.Parts.{word_in};

use crate::items::follow_items;
use crate::work::Moving;
use heap_parts::Parts;
use heap_space::Space;
use object_header::{Flag, clear, is_set, set};
use remember_cards::{Remember, Span};
use std::alloc::AllocError;

/// Takes all that the parts remember, what was kept for pinned objects first. The list is empty before. The error is out of
/// memory.
pub(crate) fn take_all(parts: &mut Parts, spans: &mut Vec<Span>) -> Result<(), AllocError>
    requires take { CanTakeAll parts.old }
    requires empty { spans.old.items ≡ [] }
    ensures { OnOk result (TookAll parts.old parts.new spans.new.items) }
{
    take_spans(&mut parts.remember, &mut parts.space, spans)
}

/// Takes all that is remembered, what was kept for pinned objects first. Nothing is remembered then. The list is empty before.
/// The error is out of memory.
fn take_spans(
    remember: &mut Remember,
    space: &mut Space,
    spans: &mut Vec<Span>,
) -> Result<(), AllocError>
    requires take { CanTakeSpans space.old remember.old }
    requires empty { spans.old.items ≡ [] }
    ensures taken { OnOk result (TakesSpans space.old remember.old spans.old.items space.new remember.new spans.new.items) }
    ensures none { OnOk result ((remember.new.entries ≡ []) × (remember.new.kept ≡ [])) }
{
    // The first pass takes what was written, and the second what is kept, which then goes in front.
    take_pass(remember, space, spans)?;
    let written = spans.len();
    take_pass(remember, space, spans)?;
    spans.rotate_left(written);
    Ok(())
}

/// Takes what is to be handed out. What is kept is to be handed out next. The error is out of memory.
fn take_pass(
    remember: &mut Remember,
    space: &mut Space,
    spans: &mut Vec<Span>,
) -> Result<(), AllocError>
    requires { CanTakeSpans space.old remember.old }
    ensures taken { OnOk result (TakesSpans space.old remember.old spans.old.items space.new remember.new spans.new.items) }
    ensures kept { OnOk result (remember.new.kept ≡ []) }
    ensures entries { OnOk result (remember.old.kept ≡ [] → remember.new.entries ≡ []) }
    ensures more { OnOk result (length spans.old.items ≤ length spans.new.items) }
{
    while let Some(span) = take_span(remember, space) {
        spans.push(span)?;
    }
    Ok(())
}

/// Takes the next remembered items of an object. Its first word tells what is still remembered of it.
fn take_span(remember: &mut Remember, space: &mut Space) -> Option<Span>
    requires { CanTakeSpans space.old remember.old }
    ensures keeps { IsSome result → KeepsMiddle space.old remember.old space.new remember.new }
    ensures handed { IfSome result (λ span. HandsOut remember.old remember.new span) }
    ensures fewer { IfSome result (λ span. spans_left remember.new + 1 ≡ spans_left remember.old) }
    ensures same { IsSome result → remember.new.kept ≡ remember.old.kept }
    ensures none { IfNone result (remembered_by remember.new ≡ remembered_by remember.old) }
    ensures over { IfNone result ((remember.new.kept ≡ []) × (remember.new.entries ≡ map held_whole remember.old.kept)) }
    ensures space { IfNone result (space.new ≡ space.old) }
{
    let span = remember.drain_next()?;
    retell(remember, space, span.a);
    Some(span)
}

/// Lets the first word of the object at a place tell what is remembered of it.
fn retell(remember: &Remember, space: &mut Space, a: u64)
    requires { IsTrue (has space.old.blocks a) }
    ensures { space.new ≡ with_head space.old a (drained_head (is_in a remember.now.kept) (has_held_cards (remembered_by remember.now) a) (word_at space.old.blocks a)) }
{
    let head = space.read(a);
    let tracked = with_flag(head, Flag::Track, !remember.is_kept(a));
    let carded = with_flag(tracked, Flag::CardsSet, remember.has_cards(a));
    space.write(a, carded);
}

/// The word with a flag set or not set.
fn with_flag(word: u64, flag: Flag, is_set: bool) -> u64
    ensures { result ≡ flag_is word flag is_set }
{
    if is_set {
        return set(word, flag);
    }
    clear(word, flag)
}

/// Puts the spans of each object into the order of their items. The objects stay in the order in which they were remembered.
pub(crate) fn order_spans(spans: &mut [Span])
    ensures { IsPermutation spans.old spans.new }
{
    let mut from = 0;
    while from < spans.len() {
        let to = end_of_object(spans, from);
        order_part(spans, from, to);
        from = to;
    }
}

/// The index behind the last of the spans from an index on that are one object's.
fn end_of_object(spans: &[Span], from: usize) -> usize
    requires { from < length spans.now }
    ensures more { from < result }
    ensures within { result ≤ length spans.now }
{
    let a = spans[from].a;
    let mut to = from + 1;
    while to < spans.len() && spans[to].a == a {
        to += 1;
    }
    to
}

/// Puts the spans from one index on and before another into the order of their items.
fn order_part(spans: &mut [Span], from: usize, to: usize)
    requires order { from ≤ to }
    requires within { to ≤ length spans.old }
    ensures same { IsPermutation spans.old spans.new }
    ensures len { length spans.new ≡ length spans.old }
{
    spans[from..to].sort_unstable_by_key(
        |span: &Span| -> u64
            ensures { result ≡ span.now.from }
        { span.from },
    );
}

/// Whether marking visited the object at a place.
pub(crate) fn is_visited(parts: &Parts, a: u64) -> bool
    requires { IsTrue (has parts.now.memory.blocks a) }
    ensures { result ≡ has_flag (word_in parts.now a) Visited }
{
    is_set(parts.space.read(a), Flag::Visited)
}

/// Follows the references of these spans. The error is out of memory.
pub(crate) fn drain_spans(
    parts: &mut Parts,
    moving: &mut Moving,
    spans: &[Span],
) -> Result<(), AllocError>
    requires { CanDrainSpans parts.old moving.old spans.now }
    ensures { (stage : Stage) (spot : Spot) → Standing stage parts.old moving.old spot → ((k : ℕ) (span : Span) → slice_get spans.now k ≡ Some span → MaySpan stage spot span)
        → OnOk result (DrainedSpans stage parts.old parts.new moving.old moving.new spot spans.now (length spans.now)) }
{
    for span in spans {
        drain_span(parts, moving, *span)?;
    }
    Ok(())
}

/// Follows the references of a span.
fn drain_span(parts: &mut Parts, moving: &mut Moving, span: Span) -> Result<(), AllocError>
    requires { CanDrainSpan parts.old moving.old span }
    ensures { (stage : Stage) (spot : Spot) → Standing stage parts.old moving.old spot → MaySpan stage spot span → OnOk result (DrainedSpan stage parts.old parts.new moving.old moving.new spot span) }
{
    follow_items(parts, moving, span.a, span.from, span.to)
}
