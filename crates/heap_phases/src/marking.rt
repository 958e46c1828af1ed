//! Visits within the increment.
ghost use Rattle.std.specs.Prelude.{◌≡◌, ◌<◌, [], IfOk};
ghost use Rattle.text_model.specs.declared.line.Phase.TheVariants.{Marking};
ghost use Rattle.heap_phases.specs.Budget.{CanMark, MarksPlaces, VisitsWithin, is_budget};
ghost use Rattle.heap_phases.specs.Steps.{CanStep};

use crate::roots::queue_roots;
use heap_parts::Parts;
use mark_steps::MarkEnd;
use std::alloc::AllocError;

/// Visits gray objects and appends their births, until their words reach the increment. Where none is left before, the
/// roots are queued again, since what they refer to may have changed, and visits go on. Tells whether the words reached
/// the increment; else nothing is left to visit.
pub(crate) fn visit(
    parts: &mut Parts,
    places: &mut Vec<u64>,
    visited: &mut Vec<u64>,
) -> Result<bool, AllocError>
    requires can { CanStep parts.old }
    requires phase { parts.old.phase ≡ Marking }
    requires none { visited.old.items ≡ [] }
    ensures { IfOk result (λ goes_on. VisitsWithin parts.old parts.new visited.new.items goes_on) }
{
    let increment = parts.settings.increment;
    let MarkEnd::Empty { words } = mark(parts, increment, visited)? else {
        return Ok(true);
    };
    queue_roots(parts, places)?;
    let end = mark(parts, increment - words, visited)?;
    Ok(has_reached(end))
}

/// Whether the words of what was visited reached the budget.
fn has_reached(end: MarkEnd) -> bool
    ensures { result ≡ is_budget end }
{
    match end {
        MarkEnd::Budget => true,
        MarkEnd::Empty { .. } => false,
    }
}

/// Visits gray objects within a budget of words, and appends their births.
fn mark(parts: &mut Parts, budget: u64, visited: &mut Vec<u64>) -> Result<MarkEnd, AllocError>
    requires some { 0 < budget }
    requires can { CanMark parts.old }
    ensures { IfOk result (λ end. MarksPlaces budget parts.old parts.new visited.old.items visited.new.items end) }
{
    let end = parts.gray.mark(
        &mut parts.space,
        &parts.types,
        &parts.nursery,
        budget,
        visited,
    )?;
    Ok(end)
}
