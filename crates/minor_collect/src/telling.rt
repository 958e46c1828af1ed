//! The lines of a minor collection.

ghost use Rattle.std.specs.Prelude.{◌≡◌, ◌++◌, map, OnOk};
ghost use Rattle.text_model.specs.declared.line.Line.TheVariants.{Cleared, Destroyed, LinkCut};

use std::alloc::AllocError;
use text_model::{Line, LinkEnd};

/// Appends the lines on targets, destructors and links.
pub(crate) fn tell_loss(
    cleared: &[u64],
    destroyed: &[u64],
    ends: &[LinkEnd],
    events: &mut Vec<Line>,
) -> Result<(), AllocError>
    ensures { OnOk result (events.new.items ≡ ((events.old.items ++ map (λ birth. Cleared birth) cleared.now) ++ map (λ birth. Destroyed birth) destroyed.now) ++ map (λ end. LinkCut end) ends.now) }
{
    events.reserve(cleared.len())?;
    events.reserve(destroyed.len())?;
    events.reserve(ends.len())?;
    tell_cleared(cleared, events)?;
    tell_destroyed(destroyed, events)?;
    tell_ends(ends, events)
}

/// Appends a line for each weak object whose target is gone.
fn tell_cleared(births: &[u64], events: &mut Vec<Line>) -> Result<(), AllocError>
    ensures { OnOk result (events.new.items ≡ events.old.items ++ map (λ birth. Cleared birth) births.now) }
{
    for birth in births {
        events.push(Line::Cleared { birth: *birth })?;
    }
    Ok(())
}

/// Appends a line for each object that is gone and has a destructor.
fn tell_destroyed(births: &[u64], events: &mut Vec<Line>) -> Result<(), AllocError>
    ensures { OnOk result (events.new.items ≡ events.old.items ++ map (λ birth. Destroyed birth) births.now) }
{
    for birth in births {
        events.push(Line::Destroyed { birth: *birth })?;
    }
    Ok(())
}

/// Appends a line for each end of a link.
fn tell_ends(ends: &[LinkEnd], events: &mut Vec<Line>) -> Result<(), AllocError>
    ensures { OnOk result (events.new.items ≡ events.old.items ++ map (λ end. LinkCut end) ends.now) }
{
    for end in ends {
        events.push(Line::LinkCut { end: *end })?;
    }
    Ok(())
}
