//! The sweep of one page: its dead blocks go on the chain, and the page goes on another list.

ghost use Rattle.std.specs.Prelude.{◌≡◌, ℕ, ◌+◌, ◌-◌, ◌/◌, ◌<◌, ◌≤◌, ◌∷◌, List, OnOk, OnErr};
ghost use Rattle.heap_space.specs.Extents.{Extent};
ghost use Rattle.size_pages.specs.PageWords.{word_in, IsInArenas};
ghost use Rattle.size_pages.specs.PageHeader.{first_fresh, HasPageHeader, blocks_at};
ghost use Rattle.size_pages.specs.HasBlocks.{page_size, HasBlocks, HasBlocksBut, Stands};
ghost use Rattle.size_pages.specs.HasBlocks.{KeepsSizes};
ghost use Rattle.size_pages.specs.Kinds.{list_index};
ghost use Rattle.size_pages.specs.declared.kinds.PageKind.TheVariants.{Waiting};
ghost use Rattle.size_pages.specs.PageLists.{SameSigns, Unlinks};
ghost use Rattle.size_pages.specs.Headers.{HasHeaders};
ghost use Rattle.size_pages.specs.SweepSteps.{IsOnlyLists};
ghost use Rattle.size_pages.specs.Sweeping.{CanSweep, SweepsPage};
ghost use Rattle.size_pages.specs.SlotSteps.{CanSweepAt, CanSweepSlot, GathersBirths, HoldsNumbers};
ghost use Rattle.size_pages.specs.SlotSteps.{SweepsBlocks, SweepsSlot, CanRelist, Relists};

use crate::Pages;
use crate::blocks::{clear_page, put_on_chain, right_kind};
use crate::header::{self, HEADER};
use crate::kinds::WAITING_LIST;
use crate::links::{first, unlink};
use crate::words::{load, store};
use heap_space::Space;
use object_header::{Flag, clear, is_set, survives_sweep};
use std::alloc::AllocError;

/// How many blocks of the page were handed out ever.
fn slots(space: &Space, page: u64, class: u64) -> u64
    requires header { HasPageHeader space.now page }
    requires class { 0 < class }
    requires fresh { blocks_at page ≤ first_fresh (word_in space.now) page }
    ensures { result ≡ (first_fresh (word_in space.now) page - blocks_at page) / class }
{
    (header::first_fresh(space, page) - (page + HEADER)) / class
}

impl Pages {
    /// Sweeps the waiting page of lowest place. The births of its objects that were not visited are
    /// appended, and their blocks given back. The others lose the flag Visited, and reserved homes
    /// are passed over. The page, which does not wait any more, is unused where nothing is left.
    ///
    /// Word 0 of each live block is to be a header without the flag Free. The only error is out of
    /// memory, and leaves everything as it was.
    pub fn sweep_page(&mut self, space: &mut Space, freed: &mut Vec<u64>) -> Result<(), AllocError>
        requires { CanSweep self.old space.old }
        ensures swept { (live : List Extent) (page : ℕ) (rest : List ℕ)
            → HasHeaders self.old space.old live (page ∷ rest)
            → OnOk result (SweepsPage self.new space.old space.new (page_size self.old) live page
            rest freed.old.items freed.new.items) }
        ensures err { OnErr result (self.new ≡ self.old) }
        ensures err_space { OnErr result (space.new ≡ space.old) }
        ensures err_freed { OnErr result (freed.new.items ≡ freed.old.items) }
        ensures arenas { IsInArenas space.old space.new }
        ensures stands { Stands self.new space.new }
        ensures sizes { KeepsSizes self.old self.new }
    {
        let page = first(&self.heads, WAITING_LIST);
        self.gather(space, page, freed)?;
        self.sweep_blocks(space, page);
        self.relist(space, page);
        Ok(())
    }

    /// Appends the births of the page's objects that were not visited, or nothing.
    fn gather(&self, space: &Space, page: u64, freed: &mut Vec<u64>) -> Result<(), AllocError>
        requires { CanSweepAt self.now space.now page }
        ensures gathered { OnOk result (GathersBirths self.now space.now page freed.old.items
            freed.new.items) }
        ensures err { OnErr result (freed.new.items ≡ freed.old.items) }
    {
        let before = freed.len();
        if self.gather_births(space, page, freed).is_err() {
            freed.truncate(before);
            return Err(AllocError);
        }
        Ok(())
    }

    /// Appends the births of the page's objects that were not visited.
    fn gather_births(
        &self,
        space: &Space,
        page: u64,
        freed: &mut Vec<u64>,
    ) -> Result<(), AllocError>
        requires { CanSweepAt self.now space.now page }
        ensures gathered { OnOk result (GathersBirths self.now space.now page freed.old.items
            freed.new.items) }
        ensures more { HoldsNumbers freed.old.items freed.new.items }
    {
        let class = header::class(space, page);
        let count = slots(space, page, class);
        for slot in 0..count {
            let block = page + HEADER + slot * class;
            let word = load(space, block);
            if !is_set(word, Flag::Free) && !survives_sweep(word) {
                freed.push(load(space, block + 1))?;
            }
        }
        Ok(())
    }

    /// Gives back the blocks of the page's objects that were not visited, and takes the flag
    /// Visited off the others.
    fn sweep_blocks(&self, space: &mut Space, page: u64)
        requires { CanSweepAt self.now space.old page }
        ensures { SweepsBlocks self.now space.old space.new page }
    {
        let class = header::class(space, page);
        let count = slots(space, page, class);
        for slot in 0..count {
            sweep_slot(space, page, page + HEADER + slot * class);
        }
    }

    /// Puts the page, which waits, on the list that its words call for.
    fn relist(&mut self, space: &mut Space, page: u64)
        requires { CanRelist self.old space.old page }
        ensures { Relists self.old self.new space.old space.new page }
    {
        self.take_off_first(space, page);
        if header::live_count(space, page) == 0 {
            self.lower(page);
            clear_page(space, page);
            return;
        }
        let class = header::class(space, page);
        let kind = right_kind(space, page, class, page + self.page);
        self.put_on(space, page, kind.list(class), kind);
    }

    /// Takes the first waiting page off its list.
    fn take_off_first(&mut self, space: &mut Space, page: u64)
        requires { CanRelist self.old space.old page }
        ensures off { (live : List Extent) (rest : List ℕ)
            → HasBlocks self.old space.old live (page ∷ rest)
            → HasBlocksBut self.new space.new live rest page }
        ensures unlinks { Unlinks (word_in space.old) (word_in space.new) self.old.heads.items
            self.new.heads.items page (list_index Waiting 0) }
        ensures signs { SameSigns (word_in space.old) (word_in space.new) page }
        ensures lists { IsOnlyLists self.old self.new }
        ensures arenas { IsInArenas space.old space.new }
    {
        unlink(&mut self.heads, space, page, WAITING_LIST);
        self.waiting -= 1;
    }
}

/// Gives the block back, or takes the flag Visited off it, unless it is free.
fn sweep_slot(space: &mut Space, page: u64, block: u64)
    requires { CanSweepSlot space.old page block }
    ensures swept { SweepsSlot (word_in space.old) (word_in space.new) page block }
    ensures arenas { IsInArenas space.old space.new }
{
    let word = load(space, block);
    if is_set(word, Flag::Free) {
        return;
    }
    if !survives_sweep(word) {
        put_on_chain(space, page, block);
        return;
    }
    store(space, block, clear(word, Flag::Visited));
}
