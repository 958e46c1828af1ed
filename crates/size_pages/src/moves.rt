//! Pages that leave a list, change, and go on another.

ghost use Rattle.std.specs.Prelude.{◌≡◌, ◌≢◌, ℕ, ◌+◌, ◌-◌, ◌*◌, ◌/◌, ◌<◌, ◌≤◌, List, ◌∷◌, length};
ghost use Rattle.std.specs.Prelude.{slice_index, IfOk, OnErr};
ghost use Rattle.heap_space.specs.Extents.{Extent, KeepsWords};
ghost use Rattle.size_pages.specs.PageWords.{word_in, IsInArenas};
ghost use Rattle.size_pages.specs.PageHeader.{blocks_at};
ghost use Rattle.size_pages.specs.PageLists.{IsPage, SameSigns, Unlinks, Links};
ghost use Rattle.size_pages.specs.HasBlocks.{HasBlocks, HasBlocksBut, Stands, IsLive};
ghost use Rattle.size_pages.specs.Kinds.{kind_number};
ghost use Rattle.size_pages.specs.Steps.{TakesNext, IsOnlyHeads, CanTakeOff, CanPutOn, CanEnd};
ghost use Rattle.size_pages.specs.Steps.{CanGiveFull, CanTakeUnlisted, StaysOpen};
ghost use Rattle.size_pages.specs.Growth.{IsLowered, KeepsBlocks};
ghost use Rattle.size_pages.specs.Calls.{page_of};
ghost use Rattle.size_pages.specs.Moves.{FindsPage, TakesListed, GivesBlock};

use crate::blocks::{clear_page, keeps_room, put_on_chain, right_kind, take_from};
use crate::kinds::PageKind;
use crate::links::{first, link, unlink};
use crate::{ARENAS, Pages, header};
use heap_space::Space;
use std::alloc::AllocError;

impl Pages {
    /// Where the page of a place begins.
    pub(crate) fn page_of(&self, a: u64) -> u64
        requires low { 4294967296 ≤ a }
        requires size { 0 < self.now.page }
        ensures { result ≡ page_of self.now.page a }
    {
        ARENAS + (a - ARENAS) / self.page * self.page
    }

    /// Takes the page off its list, which is not that of the waiting pages.
    pub(crate) fn take_off(&mut self, space: &mut Space, page: u64, list: usize)
        requires { CanTakeOff self.old space.old page list }
        ensures off { (live : List Extent) (waiting : List ℕ)
            → HasBlocks self.old space.old live waiting
            → HasBlocksBut self.new space.new live waiting page }
        ensures unlinks { Unlinks (word_in space.old) (word_in space.new) self.old.heads.items
            self.new.heads.items page list }
        ensures signs { SameSigns (word_in space.old) (word_in space.new) page }
        ensures heads { IsOnlyHeads self.old self.new }
        ensures arenas { IsInArenas space.old space.new }
    {
        unlink(&mut self.heads, space, page, list);
    }

    /// Puts the page in front of the list, which is not that of the waiting pages.
    pub(crate) fn put_on(&mut self, space: &mut Space, page: u64, list: usize, kind: PageKind)
        requires { CanPutOn self.old space.old page list (kind_number kind) }
        ensures on { (live : List Extent) (waiting : List ℕ)
            → HasBlocksBut self.old space.old live waiting page
            → HasBlocksBut self.new space.new live waiting 0 }
        ensures links { Links (word_in space.old) (word_in space.new) self.old.heads.items
            self.new.heads.items page list (kind_number kind) }
        ensures heads { IsOnlyHeads self.old self.new }
        ensures arenas { IsInArenas space.old space.new }
    {
        link(&mut self.heads, space, page, list, kind);
    }

    /// Takes a block of n words from a page that is on no list, and puts the page on its list.
    pub(crate) fn take_unlisted(&mut self, space: &mut Space, page: u64, n: u64) -> u64
        requires { CanTakeUnlisted self.old space.old page n }
        ensures taken { (live : List Extent) (waiting : List ℕ)
            → HasBlocksBut self.old space.old live waiting page
            → HasBlocksBut self.new space.new ((result, n) ∷ live) waiting 0 }
        ensures kept { (live : List Extent) (waiting : List ℕ)
            → HasBlocksBut self.old space.old live waiting page
            → KeepsWords space.old space.new live }
        ensures cleared { word_in space.new result ≡ 0 }
        ensures place { (blocks_at page ≤ result) × (result + n ≤ page + self.old.page) }
        ensures page { page ≡ page_of self.old.page result }
        ensures next { TakesNext (word_in space.old) page result }
        ensures heads { IsOnlyHeads self.old self.new }
        ensures arenas { IsInArenas space.old space.new }
    {
        let block = take_from(space, page, n);
        let kind = right_kind(space, page, n, page + self.page);
        self.put_on(space, page, kind.list(n), kind);
        block
    }

    /// The page is to be unused: a search for unused pages begins at it or before.
    pub(crate) fn lower(&mut self, page: u64)
        requires size { 0 < self.old.page }
        requires page { IsPage self.old.page self.old.count page }
        ensures { IsLowered self.old self.new page }
    {
        self.lowest = self.lowest.min((page - ARENAS) / self.page);
    }

    /// The first page with blocks of n words that has room, if it stays on its list where one is
    /// taken, and else 0.
    pub(crate) fn open_page(&self, space: &Space, n: u64) -> u64
        requires stands { Stands self.now space.now }
        requires n { (2 ≤ n) × (n ≤ self.now.small) }
        requires heads { 2 * self.now.small + 2 ≤ length self.now.heads.items }
        ensures { result ≢ 0 → StaysOpen self.now space.now result n }
    {
        let list = PageKind::Room.list(n);
        let page = first(&self.heads, list);
        if page == 0 {
            return 0;
        }
        if keeps_room(space, page, n, page + self.page) {
            return page;
        }
        0
    }

    /// Takes a block of n words from the page, which stays on its list.
    pub(crate) fn take_listed(&self, space: &mut Space, page: u64, n: u64) -> u64
        requires { StaysOpen self.now space.old page n }
        ensures { TakesListed self.now space.old space.new n result }
    {
        take_from(space, page, n)
    }

    /// A page for a block of n words, taken off its list where it was on one: the first of its
    /// class that has room, or else the lowest unused one.
    pub(crate) fn find_page(&mut self, space: &mut Space, n: u64) -> Result<u64, AllocError>
        requires stands { Stands self.old space.old }
        requires n { (2 ≤ n) × (n ≤ self.old.small) }
        requires heads { 2 * self.old.small + 2 ≤ length self.old.heads.items }
        ensures found { IfOk result (λ p. FindsPage self.old self.new space.old space.new p n) }
        ensures err { OnErr result (space.new ≡ space.old) }
        ensures err_blocks { OnErr result (KeepsBlocks self.old self.new space.old) }
    {
        let list = PageKind::Room.list(n);
        let page = first(&self.heads, list);
        if page == 0 {
            return self.start_page(space, n);
        }
        self.take_off(space, page, list);
        Ok(page)
    }

    /// The block, of the page, is not live any more. Where it was the last live one the page is
    /// unused from then on, unless it waits.
    pub(crate) fn give(&mut self, space: &mut Space, page: u64, a: u64, n: u64)
        requires live { IsLive self.old space.old (a, n) }
        requires page { page ≡ page_of self.old.page a }
        ensures { GivesBlock self.old self.new space.old space.new page a n }
    {
        let kind = header::kind(space, page);
        let live = header::live_count(space, page);
        let waits = kind.is_waiting();
        if waits {
            put_on_chain(space, page, a);
            return;
        }
        if live == 1 {
            self.end_page(space, page, a, n, kind.list(n));
            return;
        }
        if kind.is_full() {
            self.give_back_full(space, page, a, n);
            return;
        }
        put_on_chain(space, page, a);
    }

    /// The block, the last live one of its page, is not live any more.
    pub(crate) fn end_page(&mut self, space: &mut Space, page: u64, a: u64, n: u64, list: usize)
        requires { CanEnd self.old space.old page a n list }
        ensures { GivesBlock self.old self.new space.old space.new page a n }
    {
        self.take_off(space, page, list);
        self.lower(page);
        clear_page(space, page);
    }

    /// The block, of a full page, is not live any more.
    pub(crate) fn give_back_full(&mut self, space: &mut Space, page: u64, a: u64, n: u64)
        requires { CanGiveFull self.old space.old page a n }
        ensures { GivesBlock self.old self.new space.old space.new page a n }
    {
        self.take_off(space, page, PageKind::Full.list(n));
        put_on_chain(space, page, a);
        self.put_on(space, page, PageKind::Room.list(n), PageKind::Room);
    }
}
