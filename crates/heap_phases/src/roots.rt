//! Marking begins with the objects of the roots.
ghost use Rattle.std.specs.Prelude.{◌≡◌, ◌++◌, OnOk, IfOk, not, filter};
ghost use Rattle.text_model.specs.declared.line.Phase.TheVariants.{Scanning};
ghost use Rattle.heap_parts.specs.Places.{is_young};
ghost use Rattle.heap_parts.specs.Collects.{StepsMajor};
ghost use Rattle.heap_phases.specs.Steps.{CanStep, CountsHusks, CanQueue};
ghost use Rattle.heap_phases.specs.Visiting.{QueuesRoots, old_roots, with_gray};

use crate::StepEnd;
use heap_parts::Parts;
use mark_steps::Gray;
use std::alloc::AllocError;
use text_model::{Line, Phase};

/// The first place outside the nursery.
const FIRST_OLD: u64 = 4_294_967_296;

/// Marking starts: the objects of the roots that lie outside the nursery are to be visited, and
/// nothing else is.
pub(crate) fn start(
    parts: &mut Parts,
    places: &mut Vec<u64>,
    events: &mut Vec<Line>,
) -> Result<StepEnd, AllocError>
    requires can { CanStep parts.old }
    requires phase { parts.old.phase ≡ Scanning }
    ensures steps { OnOk result (StepsMajor parts.old parts.new events.old.items events.new.items) }
    ensures counts { IfOk result (λ end. CountsHusks parts.old parts.new end) }
    ensures freed { IfOk result (λ end. end.freed_words ≡ 0) }
    ensures queued { OnOk result (QueuesRoots parts.old parts.new) }
{
    queue_roots(parts, places)?;
    parts.phase = Phase::Marking;
    events.push(Line::Stepped {
        from: Phase::Scanning,
        to: Phase::Marking,
    })?;
    Ok(StepEnd {
        husk_words: 0,
        freed_words: 0,
    })
}

/// Queues the objects of the roots that lie outside the nursery: those of slots by number, those that wait for a
/// finalizer or are queued for one, and those that P links keep, by structure. Pinned objects lie in the nursery.
pub(crate) fn queue_roots(parts: &mut Parts, places: &mut Vec<u64>) -> Result<(), AllocError>
    requires { CanQueue parts.old }
    ensures { OnOk result (parts.new ≡ with_gray parts.old (parts.old.gray ++ old_roots parts.old)) }
{
    push_old(&mut parts.gray, &parts.slots)?;
    places.clear();
    parts.finals.waiting_places(places)?;
    parts.links.forced(places)?;
    push_old(&mut parts.gray, places)?;
    Ok(())
}

/// Queues those of the places that lie outside the nursery, in their order.
fn push_old(gray: &mut Gray, places: &[u64]) -> Result<(), AllocError>
    ensures { OnOk result (gray.new ≡ gray.old ++ filter (λ q. not (is_young q)) places.now) }
{
    for place in places {
        if *place >= FIRST_OLD {
            gray.push(*place)?;
        }
    }
    Ok(())
}
