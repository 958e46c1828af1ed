//! The live blocks by rising place.

ghost use Rattle.std.specs.Prelude.{◌≡◌, ℕ, ◌+◌, ◌*◌, ◌<◌, ◌≤◌, List, ◌++◌, OnOk, OnErr};
ghost use Rattle.heap_space.specs.Extents.{Extent};
ghost use Rattle.size_pages.specs.Headers.{HasHeaders, StandsWithHeaders, AppendsLive, HoldsMore};
ghost use Rattle.size_pages.specs.Listing.{CanListBlocks, ListsBlocks};

use crate::header::{self, HEADER};
use crate::words::load;
use crate::{ARENAS, Pages};
use heap_space::Space;
use object_header::{Flag, is_set};
use std::alloc::AllocError;

impl Pages {
    /// Appends the live blocks, each its place and its words, by rising place.
    ///
    /// Word 0 of each live block is to be a header without the flag Free. The only error is out of
    /// memory. What `out` held stands before it then, and what stands behind that is not said.
    pub fn live_blocks(&self, space: &Space, out: &mut Vec<(u64, u64)>) -> Result<(), AllocError>
        requires { StandsWithHeaders self.now space.now }
        ensures listed { (live : List Extent) (waiting : List ℕ)
            → HasHeaders self.now space.now live waiting
            → OnOk result (AppendsLive out.old.items out.new.items live) }
        ensures err { OnErr result (HoldsMore out.old.items out.new.items) }
    {
        for number in 0..self.count {
            self.list_blocks(space, ARENAS + number * self.page, out)?;
        }
        Ok(())
    }

    /// Appends the live blocks of the page.
    fn list_blocks(
        &self,
        space: &Space,
        page: u64,
        out: &mut Vec<(u64, u64)>,
    ) -> Result<(), AllocError>
        requires { CanListBlocks self.now space.now page }
        ensures listed { OnOk result (ListsBlocks self.now space.now page out.old.items
            out.new.items) }
        ensures more { HoldsMore out.old.items out.new.items }
    {
        let class = header::class(space, page);
        if class == 0 {
            return Ok(());
        }
        let count = (header::first_fresh(space, page) - (page + HEADER)) / class;
        for slot in 0..count {
            let block = page + HEADER + slot * class;
            if !is_set(load(space, block), Flag::Free) {
                out.push((block, class))?;
            }
        }
        Ok(())
    }
}
