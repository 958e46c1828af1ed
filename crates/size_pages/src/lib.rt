//! Blocks of small sizes, in pages. A page is a header of eight words, and then blocks of one size,
//! its class:
//!
//! | word | what it holds |
//! |---|---|
//! | 0 | the class: the words of a block, or 0 where the page is unused |
//! | 1 | the first free block of the chain, or 0 |
//! | 2 | how many blocks are live |
//! | 3 | the first word that was never handed out |
//! | 4 | the page behind it on its list, or 0 |
//! | 5 | the page before it on its list, or 0 |
//! | 6 | the number of its kind |
//! | 7 | 0 |
//! | from 8 on | blocks of the class, each live or free |
//!
//! Word 0 of a free block is the flag Free, and word 1 the next block of the chain, or 0. The words
//! of a live block are its owner's.
//!
//! The kind of a page says on which list it is:
//!
//! | number | kind | list |
//! |---|---|---|
//! | 0 | unused | none |
//! | 1 | with room: with a free block, or with room for one behind word 3 | one for each class |
//! | 2 | full | another for each class |
//! | 3 | waiting for a sweep | one, by rising place, whatever the class |
//!
//! What is kept beside the words of the space: sizes, counts, the first page of each list, and room
//! for the places of the pages in use while a sweep begins.
//!
//! | call | what it does | time |
//! |---|---|---|
//! | `take` | a block is live from then on | constant, but where a page is begun |
//! | `give_back` | a block is free, and its page unused where it was the last | constant |
//! | `begin_sweep` | every page in use waits | that of sorting the pages in use |
//! | `sweep_page` | the lowest waiting page loses what was not visited | that of its blocks |
//! | `live_blocks` | the live blocks, by rising place | that of all blocks |
//! | `waits`, `waiting` | whether a page waits, and how many do | constant |
//!
//! `header` knows the places of the words, `kinds` the numbers and the lists, `links` how a list is
//! linked, and `blocks` what happens inside a page. The other files are the calls and their steps.
#![tactic(auto)]

ghost use Rattle.std.specs.Prelude.{◌≡◌, ℕ, ◌+◌, ◌*◌, ◌<◌, ◌≤◌, List, [], ◌∷◌, length, IfOk, OnOk};
ghost use Rattle.std.specs.Prelude.{OnErr};
ghost use Rattle.heap_space.specs.Memory.{Memory};
ghost use Rattle.heap_space.specs.Extents.{Extent, KeepsWords, KeepsOutside};
ghost use Rattle.size_pages.specs.PageWords.{word_in, IsInArenas};
ghost use Rattle.size_pages.specs.HasBlocks.{HasBlocks, Stands, IsLive, KeepsSizes, page_size};
ghost use Rattle.size_pages.specs.HasBlocks.{arena_pages, greatest_block, page_count};
ghost use Rattle.size_pages.specs.Calls.{page_of, IsInNone, TakesFrom, TakesFirst, AddsArena};
ghost use Rattle.size_pages.specs.Calls.{ChangesAround};

mod blocks;
mod gathering;
mod growth;
mod header;
mod kinds;
mod links;
mod listing;
mod moves;
mod page_sweep;
mod sweep;
mod words;

use heap_space::Space;
use std::alloc::{AllocError, Global};

/// The place of the first arena.
pub(crate) const ARENAS: u64 = 4294967296;

/// The pages of a space. Together with that space it is seen as a list of live blocks, each a place
/// and a number of words, and a list of waiting pages. Every call that takes a space is to be given
/// the same one. In between, words of live blocks may be written, and anything may change outside
/// the arenas.
#[derive(Drop)]
pub struct Pages {
    /// The words of a page.
    pub(crate) page: u64,
    pub(crate) pages_per_arena: u64,
    /// The greatest number of words of a block.
    pub(crate) small: u64,
    /// How many pages there are, in all arenas.
    pub(crate) count: u64,
    /// How many of the first pages are surely in use: a search for unused ones begins here.
    pub(crate) lowest: u64,
    /// How many pages wait.
    pub(crate) waiting: u64,
    /// The first page of each list, or 0, in the order of `PageKind::list`.
    pub(crate) heads: Vec<u64>,
    /// Room for the places of all pages. Only while a sweep begins it holds some: those of the
    /// pages in use.
    pub(crate) order: Vec<u64>,
}

impl Pages {
    /// No page and no live block. It does not allocate.
    ///
    /// A page is to have so many words, an arena so many pages, and no block more words than
    /// `small`.
    pub fn new(alloc: Global, page: u64, pages_per_arena: u64, small: u64) -> Pages
        requires page { (64 ≤ page) × (page ≤ 8192) }
        requires arena { (1 ≤ pages_per_arena) × (pages_per_arena ≤ 1024) }
        requires small { (2 ≤ small) × (small + 8 ≤ page) }
        ensures empty { (m : Memory) → m.next_arena ≡ 4294967296
            → m.arena_words ≡ page * pages_per_arena → HasBlocks result m [] [] }
        ensures page { page_size result ≡ page }
        ensures arena { arena_pages result ≡ pages_per_arena }
        ensures small { greatest_block result ≡ small }
    {
        Pages {
            page,
            pages_per_arena,
            small,
            count: 0,
            lowest: 0,
            waiting: 0,
            heads: Vec::new(alloc),
            order: Vec::new(alloc),
        }
    }

    /// Takes a block of n words, whose word 0 is 0.
    ///
    /// A page of blocks of n words that has room gives it, where one does not wait, and else the
    /// lowest unused page is begun, and before that an arena added where none is unused. Of its
    /// page it is the first block of the chain, and where none is chained the first that was never
    /// handed out. The page changes its list where it is full then. The only error is out of
    /// memory. It leaves everything as it was.
    pub fn take(&mut self, space: &mut Space, n: u64) -> Result<u64, AllocError>
        requires stands { Stands self.old space.old }
        requires n { (2 ≤ n) × (n ≤ greatest_block self.old) }
        ensures taken { (live : List Extent) (waiting : List ℕ)
            → HasBlocks self.old space.old live waiting
            → IfOk result (λ a. HasBlocks self.new space.new ((a, n) ∷ live) waiting) }
        ensures cleared { IfOk result (λ a. word_in space.new a ≡ 0) }
        ensures elsewhere { (live : List Extent) (waiting : List ℕ)
            → HasBlocks self.old space.old live waiting
            → IfOk result (IsInNone (page_size self.old) waiting) }
        ensures from { IfOk result (λ a. TakesFrom (word_in space.old) (page_size self.old)
            (page_count self.old) n (page_of (page_size self.old) a)) }
        ensures first { IfOk result (λ a. TakesFirst (word_in space.old)
            (page_of (page_size self.old) a) a) }
        ensures arena { OnOk result (AddsArena (word_in space.old) (page_size self.old)
            (page_count self.old) n space.old space.new) }
        ensures kept { (live : List Extent) (waiting : List ℕ)
            → HasBlocks self.old space.old live waiting → KeepsWords space.old space.new live }
        ensures outside { KeepsOutside 4294967296 1099511627776 space.old space.new }
        ensures arena_words { space.new.arena_words ≡ space.old.arena_words }
        ensures next_large { space.new.next_large ≡ space.old.next_large }
        ensures err { OnErr result (space.new ≡ space.old) }
        ensures err_blocks { (live : List Extent) (waiting : List ℕ)
            → HasBlocks self.old space.old live waiting
            → OnErr result (HasBlocks self.new space.new live waiting) }
        ensures stands { Stands self.new space.new }
        ensures sizes { KeepsSizes self.old self.new }
    {
        self.grow_heads()?;
        let listed = self.open_page(space, n);
        if listed != 0 {
            return Ok(self.take_listed(space, listed, n));
        }
        let page = self.find_page(space, n)?;
        Ok(self.take_unlisted(space, page, n))
    }

    /// Takes the block, of n words at a, off the live ones. It does not allocate.
    ///
    /// A waiting page stays so. Another page is unused at once where its last live block goes.
    pub fn give_back(&mut self, space: &mut Space, a: u64, n: u64)
        requires { IsLive self.old space.old (a, n) }
        ensures given { (live : List Extent) (waiting : List ℕ)
            → HasBlocks self.old space.old ((a, n) ∷ live) waiting
            → HasBlocks self.new space.new live waiting }
        ensures kept { (live : List Extent) (waiting : List ℕ)
            → HasBlocks self.old space.old ((a, n) ∷ live) waiting
            → KeepsWords space.old space.new live }
        ensures around { ChangesAround (word_in space.old) (word_in space.new) (page_size self.old)
            (page_count self.old) (page_of (page_size self.old) a) a }
        ensures arenas { IsInArenas space.old space.new }
        ensures stands { Stands self.new space.new }
        ensures sizes { KeepsSizes self.old self.new }
    {
        let page = self.page_of(a);
        self.give(space, page, a, n);
    }

    /// The number of waiting pages.
    pub fn waiting(&self) -> u64
        ensures { (m : Memory) (live : List Extent) (waiting : List ℕ)
            → HasBlocks self.now m live waiting → result ≡ length waiting }
    {
        self.waiting
    }
}
