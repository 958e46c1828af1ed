//! Sweeping: pages wait, and are swept one at a time, the one of lowest place first.

ghost use Rattle.std.specs.Prelude.{◌≡◌, ◌≢◌, ℕ, ◌+◌, ◌*◌, ◌^◌, ◌<◌, ◌≤◌, ◌↔◌, List, [], ◌∷◌};
ghost use Rattle.std.specs.Prelude.{IsTrue};
ghost use Rattle.heap_space.specs.Extents.{Extent, KeepsWords};
ghost use Rattle.size_pages.specs.PageWords.{word_in, IsInArenas};
ghost use Rattle.size_pages.specs.Kinds.{kind_number, list_index};
ghost use Rattle.size_pages.specs.declared.kinds.PageKind.TheVariants.{Waiting};
ghost use Rattle.size_pages.specs.PageLists.{EachPlace, IsIn, Links};
ghost use Rattle.size_pages.specs.HasBlocks.{HasBlocks, HasBlocksBut, Stands, KeepsSizes};
ghost use Rattle.size_pages.specs.HasBlocks.{page_size};
ghost use Rattle.size_pages.specs.Calls.{page_of, BeginsLive, NoneWaits, BeginsSweep};
ghost use Rattle.size_pages.specs.SweepSteps.{CanWait, CanPutWaiting, WaitsMore};

use crate::kinds::{PageKind, WAITING_LIST};
use crate::links::link;
use crate::{Pages, header};
use heap_space::Space;

impl Pages {
    /// Whether the page of the live block at a waits. It does not allocate.
    pub fn waits(&self, space: &Space, a: u64) -> bool
        requires { BeginsLive self.now space.now a }
        ensures { (live : List Extent) (waiting : List ℕ)
            → HasBlocks self.now space.now live waiting
            → IsTrue result ↔ IsIn (page_of (page_size self.now) a) waiting }
    {
        header::kind(space, self.page_of(a)).is_waiting()
    }

    /// Every page in use waits from then on. It does not allocate, and looks at no unused page.
    pub fn begin_sweep(&mut self, space: &mut Space)
        requires { NoneWaits self.old space.old }
        ensures begun { (live : List Extent) → HasBlocks self.old space.old live []
            → BeginsSweep self.new space.new live }
        ensures kept { (live : List Extent) → HasBlocks self.old space.old live []
            → KeepsWords space.old space.new live }
        ensures arenas { IsInArenas space.old space.new }
        ensures stands { Stands self.new space.new }
        ensures sizes { KeepsSizes self.old self.new }
    {
        self.order_pages(space);
        while let Some(page) = self.order.pop() {
            self.wait_page(space, page);
        }
    }

    /// Puts the page, which is in use, in front of the waiting ones.
    fn wait_page(&mut self, space: &mut Space, page: u64)
        requires { CanWait self.old space.old page }
        ensures { WaitsMore self.old self.new space.old space.new page }
    {
        let class = header::class(space, page);
        let kind = header::kind(space, page);
        self.take_off(space, page, kind.list(class));
        self.put_waiting(space, page);
    }

    /// Puts the page, which is on no list, in front of the waiting ones.
    fn put_waiting(&mut self, space: &mut Space, page: u64)
        requires { CanPutWaiting self.old space.old page }
        ensures on { (live : List Extent) (waiting : List ℕ)
            → HasBlocksBut self.old space.old live waiting page
            → EachPlace (λ q. page < q) waiting
            → HasBlocks self.new space.new live (page ∷ waiting) }
        ensures links { Links (word_in space.old) (word_in space.new) self.old.heads.items
            self.new.heads.items page (list_index Waiting 0)
            (kind_number Waiting) }
        ensures sizes { KeepsSizes self.old self.new }
        ensures count { self.new.count ≡ self.old.count }
        ensures order { self.new.order ≡ self.old.order }
        ensures arenas { IsInArenas space.old space.new }
    {
        link(
            &mut self.heads,
            space,
            page,
            WAITING_LIST,
            PageKind::Waiting,
        );
        self.waiting += 1;
    }
}
