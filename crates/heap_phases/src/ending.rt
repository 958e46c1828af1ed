//! The end of marking: what was not visited is condemned.

ghost use Rattle.std.specs.Prelude.{◌≡◌, ◌++◌, OnOk, IfOk, IsSorted};
ghost use Rattle.std.specs.List.Sorted.{IsNonDecreasing};
ghost use Rattle.std.specs.Ordering.{nat_cmp};
ghost use Rattle.old_space.specs.Calls.{NoneWaits};
ghost use Rattle.heap_phases.specs.Ending.{CanEnd, EndsMajor, ClearsWeaks, CanChooseIn, ChoosesFinals, BecomesHusks, HoldObjects, without_places, cut_lines};
ghost use Rattle.heap_phases.specs.Steps.{CountsHusks};

use crate::dead::{list_dead, list_destroyed, list_husks, list_places, words_of};
use crate::telling::{tell_cleared, tell_destroyed, tell_ends, tell_kept};
use crate::{Phases, StepEnd};
use heap_parts::Parts;
use std::alloc::AllocError;
use text_model::{Line, LinkEnd, Phase};

impl Phases {
    /// Marking ends. Weak objects lose the targets that were not visited. What else was not visited is condemned: it
    /// leaves every list, its links are cut, and it is a husk until its unit is swept.
    pub(crate) fn end_marking(
        &mut self,
        parts: &mut Parts,
        events: &mut Vec<Line>,
    ) -> Result<StepEnd, AllocError>
        requires { CanEnd parts.old }
        ensures ends { OnOk result (EndsMajor parts.old parts.new events.old.items events.new.items) }
        ensures counts { IfOk result (λ end. CountsHusks parts.old parts.new end) }
        ensures freed { IfOk result (λ end. end.freed_words ≡ 0) }
    {
        clear_targets(parts, &mut self.births, events)?;
        choose(parts, &mut self.births, events)?;
        list_dead(
            &parts.old_blocks,
            &parts.space,
            &mut self.live,
            &mut self.dead,
        )?;
        list_destroyed(&parts.space, &parts.types, &self.dead, &mut self.births)?;
        tell_destroyed(events, &self.births)?;
        list_places(&self.dead, &mut self.places)?;
        drop_dead(parts, &self.places, &mut self.ends, events)?;
        become_husks(parts, &self.dead)?;
        Ok(StepEnd {
            husk_words: words_of(&self.dead),
            freed_words: 0,
        })
    }
}

/// Clears the targets that were not visited, and tells which weak objects lost theirs.
fn clear_targets(
    parts: &mut Parts,
    births: &mut Vec<u64>,
    events: &mut Vec<Line>,
) -> Result<(), AllocError>
    requires { CanEnd parts.old }
    ensures { OnOk result (ClearsWeaks parts.old parts.new events.old.items events.new.items) }
{
    births.clear();
    parts
        .weaks
        .after_marking(&mut parts.space, &parts.types, &parts.nursery, births)?;
    tell_cleared(events, births)?;
    Ok(())
}

/// Chooses among the dying objects with finalizers, keeps what they reach, and tells it.
fn choose(
    parts: &mut Parts,
    births: &mut Vec<u64>,
    events: &mut Vec<Line>,
) -> Result<(), AllocError>
    requires { CanChooseIn parts.old }
    ensures { OnOk result (ChoosesFinals parts.old parts.new events.old.items events.new.items) }
{
    births.clear();
    parts
        .finals
        .choose(&mut parts.space, &parts.types, &parts.nursery, births)?;
    tell_kept(events, births)?;
    Ok(())
}

/// Takes the condemned objects off the lists of weak and remembered objects, cuts their links, and tells how.
fn drop_dead(
    parts: &mut Parts,
    dead: &[u64],
    ends: &mut Vec<LinkEnd>,
    events: &mut Vec<Line>,
) -> Result<(), AllocError>
    requires sorted { IsSorted nat_cmp dead.now }
    requires rising { IsNonDecreasing dead.now }
    ensures dropped { OnOk result (parts.new ≡ without_places parts.old dead.now) }
    ensures lines { OnOk result (events.new.items ≡ events.old.items ++ cut_lines parts.old dead.now) }
{
    parts.weaks.drop_dead(dead);
    parts.remember.drop_dead(dead);
    ends.clear();
    parts.links.cut_dead(dead, ends)?;
    tell_ends(events, ends)?;
    Ok(())
}

/// The blocks of condemned objects are those of husks from then on, and all units wait to be swept.
fn become_husks(parts: &mut Parts, dead: &[(u64, u64)]) -> Result<(), AllocError>
    requires objects { HoldObjects parts.old.memory parts.old.setup.types dead.now }
    requires none { NoneWaits parts.old.old_blocks parts.old.memory }
    ensures { OnOk result (BecomesHusks parts.old parts.new dead.now) }
{
    list_husks(&parts.space, &parts.types, dead, &mut parts.husks)?;
    parts.old_blocks.begin_sweep(&mut parts.space);
    parts.phase = Phase::Sweeping;
    Ok(())
}
