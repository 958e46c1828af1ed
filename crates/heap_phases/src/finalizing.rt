//! The last step of a cycle.
ghost use Rattle.std.specs.Prelude.{◌≡◌, ◌++◌, ◌<◌, ◌^◌, map, OnOk, IfOk};
ghost use Rattle.text_model.specs.declared.line.Phase.TheVariants.{Finalizing};
ghost use Rattle.store_model.specs.Sweeping.{next_threshold as next_threshold_of};
ghost use Rattle.heap_parts.specs.Collects.{StepsMajor};
ghost use Rattle.heap_phases.specs.Ending.{HoldObjects, queued_line};
ghost use Rattle.heap_phases.specs.Bounds.{LeavesNone};
ghost use Rattle.heap_phases.specs.Steps.{CanStep, CountsHusks};

use crate::StepEnd;
use crate::dead::birth_at;
use heap_parts::Parts;
use heap_space::Space;
use std::alloc::AllocError;
use text_model::{Line, Phase};
use type_table::TypeTable;

/// The cycle ends: chosen objects enter their queues, and the threshold of the next one is set.
pub(crate) fn finalize(
    parts: &mut Parts,
    queued: &mut Vec<(u64, u64)>,
    events: &mut Vec<Line>,
) -> Result<StepEnd, AllocError>
    requires can { CanStep parts.old }
    requires phase { parts.old.phase ≡ Finalizing }
    ensures steps { OnOk result (StepsMajor parts.old parts.new events.old.items events.new.items) }
    ensures counts { IfOk result (λ end. CountsHusks parts.old parts.new end) }
    ensures freed { IfOk result (λ end. end.freed_words ≡ 0) }
    ensures none_left { OnOk result (LeavesNone parts.old parts.new) }
{
    events.push(Line::Stepped {
        from: Phase::Finalizing,
        to: Phase::Scanning,
    })?;
    queued.clear();
    parts.finals.flush(queued)?;
    tell_queued(events, &parts.space, &parts.types, queued)?;
    let threshold = next_threshold(parts.settings.minimum, parts.old_words, parts.threshold);
    events.push(Line::ThresholdIs { words: threshold })?;
    parts.threshold = threshold;
    parts.phase = Phase::Scanning;
    Ok(StepEnd {
        husk_words: 0,
        freed_words: 0,
    })
}

/// Tells the objects that entered their queues by their births.
fn tell_queued(
    events: &mut Vec<Line>,
    space: &Space,
    types: &TypeTable,
    queued: &[(u64, u64)],
) -> Result<(), AllocError>
    requires { HoldObjects space.now types.now queued.now }
    ensures { OnOk result (events.new.items ≡ events.old.items ++ map (queued_line space.now) queued.now) }
{
    for entry in queued {
        let birth = birth_at(space, types, entry.0);
        events.push(Line::Queued {
            birth,
            queue: entry.1,
        })?;
    }
    Ok(())
}

/// The threshold of the next cycle: at most 182 percent of the old words, at most 140 percent of the last one, and at
/// least the minimum. (The rule is PyPy's, in whole percents.)
fn next_threshold(minimum: u64, words: u64, threshold: u64) -> u64
    requires words { words < 2 ^ 32 }
    requires threshold { threshold < 2 ^ 32 }
    ensures { result ≡ next_threshold_of minimum words threshold }
{
    let grown = (words * 182 / 100).min(threshold * 140 / 100);
    minimum.max(grown)
}
