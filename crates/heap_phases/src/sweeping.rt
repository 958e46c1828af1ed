//! A step of sweeping.
ghost use Rattle.std.specs.Prelude.{◌≡◌, ◌<◌, ◌^◌, not, OnOk, IfOk};
ghost use Rattle.type_table.specs.Table.{KeysRise};
ghost use Rattle.object_model.specs.Sets.{is_in};
ghost use Rattle.text_model.specs.declared.line.Phase.TheVariants.{Sweeping};
ghost use Rattle.store_model.specs.Store.{husk_words};
ghost use Rattle.store_model.specs.Sweeping.{husks_where};
ghost use Rattle.heap_parts.specs.Collects.{StepsMajor};
ghost use Rattle.heap_phases.specs.Bounds.{SweepsUnits};
ghost use Rattle.heap_phases.specs.Steps.{CanStep, CountsHusks};
ghost use Rattle.heap_phases.specs.Swept.{freed_words, phase_of};

use crate::StepEnd;
use crate::telling::tell_freed;
use heap_parts::Parts;
use std::alloc::AllocError;
use std::collections::BTreeMap;
use sweep_steps::{SweepState, sweep};
use text_model::{Line, Phase};

/// Sweeps so many units as the setting `sweep` says, or all that wait where they are fewer, and tells which husks were
/// freed. Where no unit waits afterwards the phase is over.
pub(crate) fn sweep_step(
    parts: &mut Parts,
    freed: &mut Vec<u64>,
    events: &mut Vec<Line>,
) -> Result<StepEnd, AllocError>
    requires can { CanStep parts.old }
    requires phase { parts.old.phase ≡ Sweeping }
    ensures steps { OnOk result (StepsMajor parts.old parts.new events.old.items events.new.items) }
    ensures counts { IfOk result (λ end. CountsHusks parts.old parts.new end) }
    ensures made { IfOk result (λ end. end.husk_words ≡ 0) }
    ensures units { OnOk result (SweepsUnits parts.old parts.new) }
{
    freed.clear();
    let units = parts.settings.sweep;
    let state = sweep(units, &mut parts.old_blocks, &mut parts.space, freed)?;
    let words = drop_husks(&mut parts.husks, freed);
    parts.old_words -= words;
    parts.phase = phase_after(state);
    events.push(Line::Stepped {
        from: Phase::Sweeping,
        to: parts.phase,
    })?;
    tell_freed(events, freed)?;
    Ok(StepEnd {
        husk_words: 0,
        freed_words: words,
    })
}

/// The phase after a step of sweeping.
fn phase_after(state: SweepState) -> Phase
    ensures { result ≡ phase_of state }
{
    match state {
        SweepState::Working => Phase::Sweeping,
        SweepState::Finished => Phase::Finalizing,
    }
}

/// Takes the husks of these births off, and tells their words.
fn drop_husks(husks: &mut BTreeMap<u64, u64>, freed: &[u64]) -> u64
    requires rise { KeysRise husks.old.entries }
    requires fits { husk_words husks.old.entries < 2 ^ 64 }
    ensures words { result ≡ freed_words husks.old.entries freed.now }
    ensures left { husks.new.entries ≡ husks_where husks.old.entries (λ x. not (is_in x freed.now)) }
{
    let mut words = 0;
    for birth in freed {
        words += husks.remove(birth).unwrap_or(0);
    }
    words
}
