//! Pages that are begun, and arenas that are added for them.

ghost use Rattle.std.specs.Prelude.{◌≡◌, ℕ, ◌+◌, ◌*◌, ◌^◌, ◌<◌, ◌≤◌, List, length, vec_capacity};
ghost use Rattle.std.specs.Prelude.{IfOk, OnOk, OnErr};
ghost use Rattle.heap_space.specs.Memory.{Memory};
ghost use Rattle.heap_space.specs.Extents.{Extent};
ghost use Rattle.size_pages.specs.PageWords.{word_in, IsInArenas};
ghost use Rattle.size_pages.specs.PageBlocks.{Starts};
ghost use Rattle.size_pages.specs.LiveBlocks.{page_at};
ghost use Rattle.size_pages.specs.HasBlocks.{HasBlocks, Stands};
ghost use Rattle.size_pages.specs.Growth.{FindsUnused, MakesUnused, IsOnlyOrder, AddsPages};
ghost use Rattle.size_pages.specs.Growth.{KeepsBlocks, CanBegin, BeginsPage};

use crate::blocks::start_class;
use crate::{ARENAS, Pages, header};
use heap_space::Space;
use std::alloc::AllocError;

impl Pages {
    /// Room for the heads of all lists.
    pub(crate) fn grow_heads(&mut self) -> Result<(), AllocError>
        requires { self.old.small ≤ 8192 }
        ensures long { OnOk result (2 * self.old.small + 2 ≤ length self.new.heads.items) }
        ensures keeps { (m : Memory) (live : List Extent) (waiting : List ℕ)
            → HasBlocks self.old m live waiting → HasBlocks self.new m live waiting }
        ensures heads { self.new ≡ record self.old { heads = self.new.heads } }
    {
        let wanted = (2 * self.small + 2) as usize;
        if self.heads.len() < wanted {
            self.heads.resize(wanted, 0)?;
        }
        Ok(())
    }

    /// A page that becomes one of n words, on no list: the lowest unused one.
    pub(crate) fn start_page(&mut self, space: &mut Space, n: u64) -> Result<u64, AllocError>
        requires stands { Stands self.old space.old }
        requires n { (2 ≤ n) × (n ≤ self.old.small) }
        requires heads { 2 * self.old.small + 2 ≤ length self.old.heads.items }
        ensures begun { IfOk result (λ p. BeginsPage self.old self.new space.old space.new p n) }
        ensures err { OnErr result (space.new ≡ space.old) }
        ensures err_blocks { OnErr result (KeepsBlocks self.old self.new space.old) }
    {
        self.make_unused(space)?;
        Ok(self.begin_page(space, n))
    }

    /// The search for unused pages begins at the lowest one from then on, which is the first of an
    /// arena more where none was unused.
    fn make_unused(&mut self, space: &mut Space) -> Result<(), AllocError>
        requires stands { Stands self.old space.old }
        requires heads { 2 * self.old.small + 2 ≤ length self.old.heads.items }
        ensures ok { OnOk result (MakesUnused self.old self.new space.old space.new) }
        ensures err { OnErr result (space.new ≡ space.old) }
        ensures err_blocks { OnErr result (KeepsBlocks self.old self.new space.old) }
    {
        self.find_unused(space);
        if self.lowest == self.count {
            return self.add_arena(space);
        }
        Ok(())
    }

    /// The search for unused pages begins at the lowest one from then on, or behind all pages.
    fn find_unused(&mut self, space: &Space)
        requires { Stands self.old space.now }
        ensures { FindsUnused self.old self.new space.now }
    {
        let mut number = self.lowest;
        while number < self.count && header::class(space, ARENAS + number * self.page) != 0 {
            number += 1;
        }
        self.lowest = number;
    }

    /// The page at which the search begins, which is unused, becomes one of n words, on no list.
    fn begin_page(&self, space: &mut Space, n: u64) -> u64
        requires { CanBegin self.now space.old n }
        ensures page { result ≡ page_at self.now.page self.now.lowest }
        ensures starts { Starts (word_in space.old) (word_in space.new) result n }
        ensures arenas { IsInArenas space.old space.new }
    {
        let page = ARENAS + self.lowest * self.page;
        start_class(space, page, n);
        page
    }

    /// An arena more, with all its pages unused.
    fn add_arena(&mut self, space: &mut Space) -> Result<(), AllocError>
        requires stands { Stands self.old space.old }
        requires heads { 2 * self.old.small + 2 ≤ length self.old.heads.items }
        ensures ok { OnOk result (AddsPages self.old self.new space.old space.new) }
        ensures err { OnErr result (space.new ≡ space.old) }
        ensures err_order { OnErr result (IsOnlyOrder self.old self.new) }
    {
        // It tells a proof how the blocks of the space lie.
        let _words = space.arena_words();
        self.grow_order()?;
        space.add_arena()?;
        self.count += self.pages_per_arena;
        Ok(())
    }

    /// Room for the places of all pages, with those of an arena more.
    fn grow_order(&mut self) -> Result<(), AllocError>
        requires { self.old.count + self.old.pages_per_arena < 2 ^ 62 }
        ensures room { OnOk result (self.new.count + self.new.pages_per_arena ≤ vec_capacity
            self.new.order) }
        ensures order { IsOnlyOrder self.old self.new }
    {
        self.order
            .reserve((self.count + self.pages_per_arena) as usize)
    }
}
