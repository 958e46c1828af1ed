//! The objects outside the nursery. A small one has a block in a page of its size class, a larger one
//! a block of its own in the space. Both parts are seen as one list of live blocks, and one list of
//! units that wait to be swept: pages, and large blocks.
#![tactic(auto)]

ghost use Rattle.std.specs.Prelude.{◌≡◌, ◌↔◌, ℕ, ◌≤◌, List, [], ◌∷◌, length, IfOk, OnOk, OnErr, IsTrue, Contains};
ghost use Rattle.heap_space.specs.Places.{word_at};
ghost use Rattle.heap_space.specs.Memory.{Memory};
ghost use Rattle.heap_space.specs.Extents.{Extent, KeepsOutside, KeepsWords};
ghost use Rattle.size_pages.specs.Headers.{AppendsLive, HoldsMore};
ghost use Rattle.object_model.specs.Setup.{small_words};

use heap_space::Space;
use large_objects::Large;
use object_model::Settings;
use size_pages::Pages;
use std::alloc::{AllocError, Global};
use sweep_steps::Sweeper;

/// The place of the first large block: below it lie the arenas.
const FIRST_LARGE: u64 = 1_099_511_627_776;

/// The blocks outside the nursery. Every call that takes a space is to be given the same one. In
/// between, words of live blocks may be written, and anything may change outside the arenas and the
/// large blocks.
#[derive(Drop)]
pub struct Old {
    pages: Pages,
    large: Large,
    /// The greatest words of a block that a page gives.
    small: u64,
}

impl Old {
    ghost use Rattle.old_space.specs.HasBlocks.{HasBlocks, Stands, IsLive, KeepsSizes, greatest_small, page_size, arena_pages};
    ghost use Rattle.old_space.specs.Headers.{HasHeaders, StandsWithHeaders};
    ghost use Rattle.old_space.specs.Calls.{HasPageSettings, IsEmptyFor, ComesFrom, still_waiting, unit_of, BeginsLive, NoneWaits, BeginsSweep, IsElsewhere, GivesBack};

    /// No block. The only error is out of memory.
    pub fn new(alloc: Global, settings: &Settings) -> Result<Old, AllocError>
        requires { HasPageSettings settings.now }
        ensures empty { IfOk result (λ old. (m : Memory) → IsEmptyFor settings.now m → HasBlocks old m [] []) }
        ensures small { IfOk result (λ old. greatest_small old ≡ small_words settings.now) }
        ensures page { IfOk result (λ old. page_size old ≡ settings.now.page) }
        ensures arena { IfOk result (λ old. arena_pages old ≡ settings.now.arena) }
    {
        let small = settings.small.min(settings.page - 8);
        let large = Large::new(alloc)?;
        Ok(Old {
            pages: Pages::new(alloc, settings.page, settings.arena, small),
            large,
            small,
        })
    }

    /// Takes a block of n words, whose word 0 is 0. It overlaps no live one, and its unit does not wait.
    ///
    /// The only error is out of memory. Live blocks, waiting units and words are then as they were.
    pub fn take(&mut self, space: &mut Space, n: u64) -> Result<u64, AllocError>
        requires stands { Stands self.old space.old }
        requires n { (2 ≤ n) × (n ≤ 16777219) }
        ensures stands { Stands self.new space.new }
        ensures taken { (live : List Extent) (waiting : List ℕ) → HasBlocks self.old space.old live waiting → IfOk result (λ a. HasBlocks self.new space.new ((a, n) ∷ live) waiting) }
        ensures from { IfOk result (ComesFrom (greatest_small self.old) n) }
        ensures elsewhere { (live : List Extent) (waiting : List ℕ) → HasBlocks self.old space.old live waiting → IfOk result (IsElsewhere self.new waiting) }
        ensures cleared { IfOk result (λ a. word_at space.new.blocks a ≡ 0) }
        ensures kept { (live : List Extent) (waiting : List ℕ) → HasBlocks self.old space.old live waiting → KeepsWords space.old space.new live }
        ensures outside { KeepsOutside 4294967296 9223372036854775808 space.old space.new }
        ensures arena_words { space.new.arena_words ≡ space.old.arena_words }
        ensures sizes { KeepsSizes self.old self.new }
        ensures err { (live : List Extent) (waiting : List ℕ) → HasBlocks self.old space.old live waiting → OnErr result (HasBlocks self.new space.new live waiting) }
    {
        if n <= self.small {
            self.pages.take(space, n)
        } else {
            self.large.take(space, n)
        }
    }

    /// Takes the block, of n words at a, off the live ones. It does not allocate.
    pub fn give_back(&mut self, space: &mut Space, a: u64, n: u64)
        requires { IsLive self.old space.old (a, n) }
        ensures stands { Stands self.new space.new }
        ensures given { (live : List Extent) (waiting : List ℕ) → HasBlocks self.old space.old ((a, n) ∷ live) waiting → HasBlocks self.new space.new live (still_waiting a waiting) }
        ensures kept { (live : List Extent) (waiting : List ℕ) → HasBlocks self.old space.old ((a, n) ∷ live) waiting → KeepsWords space.old space.new live }
        ensures changes { GivesBack self.old space.old space.new a }
        ensures outside { KeepsOutside 4294967296 9223372036854775808 space.old space.new }
        ensures arena_words { space.new.arena_words ≡ space.old.arena_words }
        ensures sizes { KeepsSizes self.old self.new }
    {
        if a < FIRST_LARGE {
            self.pages.give_back(space, a, n);
        } else {
            self.large.give_back(space, a, n);
        }
    }

    /// The unit of each live block waits from then on, and no other. It does not allocate.
    pub fn begin_sweep(&mut self, space: &mut Space)
        requires { NoneWaits self.old space.old }
        ensures stands { Stands self.new space.new }
        ensures begun { (live : List Extent) → HasBlocks self.old space.old live [] → BeginsSweep self.new space.new live }
        ensures kept { (live : List Extent) → HasBlocks self.old space.old live [] → KeepsWords space.old space.new live }
        ensures outside { KeepsOutside 4294967296 9223372036854775808 space.old space.new }
        ensures arena_words { space.new.arena_words ≡ space.old.arena_words }
        ensures sizes { KeepsSizes self.old self.new }
    {
        self.pages.begin_sweep(space);
        self.large.begin_sweep(space);
    }

    /// Whether the unit of the live block at a waits. It does not allocate.
    pub fn waits(&self, space: &Space, a: u64) -> bool
        requires { BeginsLive self.now space.now a }
        ensures { (live : List Extent) (waiting : List ℕ) → HasBlocks self.now space.now live waiting → IsTrue result ↔ Contains waiting (unit_of self.now a) }
    {
        if a < FIRST_LARGE {
            self.pages.waits(space, a)
        } else {
            self.large.waits(space, a)
        }
    }

    /// Appends the live blocks, as places and words, by rising place.
    ///
    /// Word 0 of each live block is to be a header without the flag Free. The only error is out of memory.
    /// What `out` held stands before it then, and what stands behind that is not said.
    pub fn live_blocks(&self, space: &Space, out: &mut Vec<(u64, u64)>) -> Result<(), AllocError>
        requires { StandsWithHeaders self.now space.now }
        ensures listed { (live : List Extent) (waiting : List ℕ) → HasHeaders self.now space.now live waiting → OnOk result (AppendsLive out.old.items out.new.items live) }
        ensures err { OnErr result (HoldsMore out.old.items out.new.items) }
    {
        self.pages.live_blocks(space, out)?;
        self.large.live_blocks(space, out)?;
        Ok(())
    }
}

impl Sweeper for Old {
    ghost use Rattle.old_space.specs.Headers.{StandsWithHeaders};
    ghost use Rattle.old_space.specs.Sweeping.{SweepsLowest, units_left};

    ghost left = { units_left };

    ghost stands = { StandsWithHeaders };

    ghost steps = { SweepsLowest };

    /// The number of units that wait.
    fn waiting(&self) -> u64 {
        // The sum fits where a space stands with both parts.
        self.pages.waiting().saturating_add(self.large.waiting())
    }

    /// Sweeps the waiting page of lowest place, or, where no page waits, the waiting large block of
    /// lowest place. Word 0 of each live block is to be a header without the flag Free.
    ///
    /// The only error is out of memory, and changes nothing.
    fn sweep_one(&mut self, space: &mut Space, freed: &mut Vec<u64>) -> Result<(), AllocError> {
        if self.pages.waiting() > 0 {
            self.pages.sweep_page(space, freed)
        } else {
            let _in_order = space.arena_words();
            self.large.sweep_block(space, freed)
        }
    }
}
