//! A sweep goes over the units that wait, some of them at a time. What a unit is, and what a step
//! does to it, is the sweeper's: a page of blocks is a unit, and so is a large block.
#![tactic(auto)]

ghost use Rattle.std.specs.Prelude.{◌≡◌, ℕ, ◌+◌, ◌<◌, ◌≤◌, ◌↔◌, List, ◌++◌, length, take, drop, min, OnOk, OnErr, IfOk};
ghost use Rattle.std.specs.List.Sorted.{IsNonDecreasing, IsPermutation};
ghost use Rattle.heap_space.specs.Memory.{Memory};
ghost use Rattle.sweep_steps.specs.Steps.{Step, Sweeps, HasSwept};

use heap_space::Space;
use std::alloc::AllocError;

/// What has units that wait to be swept.
pub trait Sweeper {
    // How many units wait.
    ghost left: { Self → ℕ };

    // Whether the space is as the sweeper left it.
    ghost stands: { Self → Memory → Type 0 };

    // What a step does: the sweeper and its space before it and after it, and the births that it freed.
    ghost steps: { Step Self };

    /// The number of units that wait, where some space is as the sweeper left it.
    fn waiting(&self) -> u64
        ensures { (m : Memory) → stands self.now m → result ≡ left self.now };

    /// Sweeps one unit, and appends the births of the objects that it freed. After the error, which
    /// is out of memory alone, as many units wait as before, and `freed` is as it was.
    fn sweep_one(&mut self, space: &mut Space, freed: &mut Vec<u64>) -> Result<(), AllocError>
        requires some { 0 < left self.old }
        requires stands { stands self.old space.old }
        ensures stands { stands self.new space.new }
        ensures less { OnOk result (left self.new + 1 ≡ left self.old) }
        ensures step { OnOk result ((births : List ℕ) × (freed.new.items ≡ freed.old.items ++ births) × steps self.old space.old self.new space.new births) }
        ensures err { OnErr result ((left self.new ≡ left self.old) × (freed.new.items ≡ freed.old.items)) };
}

/// Whether a sweep is over.
#[derive(Clone, Copy, PartialEq, Eq, Debug)]
pub enum SweepState {
    /// Some unit still waits.
    Working,
    /// No unit waits.
    Finished,
}

/// Sweeps so many units, or all that wait where they are fewer, one after the other. The births of
/// the objects that were freed stand in rising order behind what `freed` held.
///
/// The only error is out of memory. Some units may have been swept by then.
pub fn sweep<S: Sweeper>(
    units: u64,
    s: &mut S,
    space: &mut Space,
    freed: &mut Vec<u64>,
) -> Result<SweepState, AllocError>
    requires { S.stands s.old space.old }
    ensures stands { S.stands s.new space.new }
    ensures swept { OnOk result (HasSwept S.steps (min units (S.left s.old)) s.old space.old s.new space.new freed.old.items freed.new.items) }
    ensures less { OnOk result (S.left s.new + min units (S.left s.old) ≡ S.left s.old) }
    ensures finished { IfOk result (λ state. (state ≡ SweepState.Finished) ↔ (S.left s.new ≡ 0)) }
{
    let before = freed.len();
    sweep_units(units, s, space, freed)?;
    sort_from(freed, before);
    if s.waiting() == 0 {
        Ok(SweepState::Finished)
    } else {
        Ok(SweepState::Working)
    }
}

/// Puts the numbers from index `from` on into rising order.
fn sort_from(numbers: &mut Vec<u64>, from: usize)
    requires { from ≤ length numbers.old.items }
    ensures front { take from numbers.new.items ≡ take from numbers.old.items }
    ensures same { IsPermutation (drop from numbers.old.items) (drop from numbers.new.items) }
    ensures rising { IsNonDecreasing (drop from numbers.new.items) }
{
    let part = &mut numbers[from..];
    part.sort_unstable();
}

/// Sweeps so many units, or all that wait where they are fewer. The births stand in the order of
/// the steps.
fn sweep_units<S: Sweeper>(
    units: u64,
    s: &mut S,
    space: &mut Space,
    freed: &mut Vec<u64>,
) -> Result<(), AllocError>
    requires { S.stands s.old space.old }
    ensures stands { S.stands s.new space.new }
    ensures steps { OnOk result ((births : List ℕ) × (freed.new.items ≡ freed.old.items ++ births) × Sweeps S.steps (min units (S.left s.old)) s.old space.old s.new space.new births) }
    ensures less { OnOk result (S.left s.new + min units (S.left s.old) ≡ S.left s.old) }
{
    let count = s.waiting().min(units);
    for i in 0..count {
        s.sweep_one(space, freed)?;
    }
    Ok(())
}
