//! The lines of a step.
ghost use Rattle.std.specs.Prelude.{◌≡◌, ◌++◌, ◌∷◌, [], map, OnOk, if◌then◌else◌};
ghost use Rattle.text_model.specs.declared.line.Line.TheVariants.{Stepped, Visited, Cleared, Kept, Destroyed, LinkCut, Freed};
ghost use Rattle.text_model.specs.declared.line.Phase.TheVariants.{Marking, Sweeping};

use std::alloc::AllocError;
use text_model::{Line, LinkEnd, Phase};

/// Tells a step of marking: whether it goes on, and the objects that were visited.
pub(crate) fn tell_visits(
    events: &mut Vec<Line>,
    goes_on: bool,
    births: &[u64],
) -> Result<(), AllocError>
    ensures { OnOk result (events.new.items ≡ events.old.items
        ++ Stepped Marking (if goes_on then Marking else Sweeping) ∷ map (λ b. Visited b) births.now) }
{
    let to = if goes_on {
        Phase::Marking
    } else {
        Phase::Sweeping
    };
    events.push(Line::Stepped {
        from: Phase::Marking,
        to,
    })?;
    tell_visited(events, births)
}

/// Tells objects that were visited.
fn tell_visited(events: &mut Vec<Line>, births: &[u64]) -> Result<(), AllocError>
    ensures { OnOk result (events.new.items ≡ events.old.items ++ map (λ b. Visited b) births.now) }
{
    events.extend(births.iter().map(|b| Line::Visited { birth: *b }))
}

/// Tells weak objects that lost their targets.
pub(crate) fn tell_cleared(events: &mut Vec<Line>, births: &[u64]) -> Result<(), AllocError>
    ensures { OnOk result (events.new.items ≡ events.old.items ++ map (λ b. Cleared b) births.now) }
{
    events.extend(births.iter().map(|b| Line::Cleared { birth: *b }))
}

/// Tells objects that are kept for finalizers.
pub(crate) fn tell_kept(events: &mut Vec<Line>, births: &[u64]) -> Result<(), AllocError>
    ensures { OnOk result (events.new.items ≡ events.old.items ++ map (λ b. Kept b) births.now) }
{
    events.extend(births.iter().map(|b| Line::Kept { birth: *b }))
}

/// Tells objects whose type has a destructor.
pub(crate) fn tell_destroyed(events: &mut Vec<Line>, births: &[u64]) -> Result<(), AllocError>
    ensures { OnOk result (events.new.items ≡ events.old.items ++ map (λ b. Destroyed b) births.now) }
{
    events.extend(births.iter().map(|b| Line::Destroyed { birth: *b }))
}

/// Tells ends of links.
pub(crate) fn tell_ends(events: &mut Vec<Line>, ends: &[LinkEnd]) -> Result<(), AllocError>
    ensures { OnOk result (events.new.items ≡ events.old.items ++ map (λ end. LinkCut end) ends.now) }
{
    events.extend(ends.iter().map(|end| Line::LinkCut { end: *end }))
}

/// Tells husks that were freed.
pub(crate) fn tell_freed(events: &mut Vec<Line>, births: &[u64]) -> Result<(), AllocError>
    ensures { OnOk result (events.new.items ≡ events.old.items ++ map (λ b. Freed b) births.now) }
{
    events.extend(births.iter().map(|b| Line::Freed { birth: *b }))
}
