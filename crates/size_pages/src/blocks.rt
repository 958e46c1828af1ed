//! The blocks of one page: the words of its header and the chain of its free blocks.

ghost use Rattle.std.specs.Prelude.{◌≡◌, ◌≢◌, ℕ, ◌+◌, ◌<◌, ◌≤◌, ◌⊎◌, ◌^◌, IsTrue};
ghost use Rattle.size_pages.specs.PageWords.{word_in, CanStore, IsInArenas};
ghost use Rattle.size_pages.specs.PageHeader.{first_free, first_fresh, HasPageHeader};
ghost use Rattle.size_pages.specs.PageBlocks.{TakesChained, TakesFresh, GivesBack, Clears, Starts};
ghost use Rattle.size_pages.specs.Kinds.{kind_number};
ghost use Rattle.size_pages.specs.declared.kinds.PageKind.TheVariants.{Room, Full};
ghost use Rattle.size_pages.specs.Steps.{CanTake, CanPut, KeepsRoom};

use crate::header::{self, HEADER};
use crate::kinds::PageKind;
use crate::words::store;
use heap_space::Space;
use object_header::Flag;

/// Hands out the first block of the page's chain.
fn take_chained(space: &mut Space, page: u64, n: u64) -> u64
    requires can { CanTake space.old page n }
    requires chained { first_free (word_in space.old) page ≢ 0 }
    ensures takes { TakesChained (word_in space.old) (word_in space.new) page result }
    ensures arenas { IsInArenas space.old space.new }
{
    let block = header::first_free(space, page);
    let next = header::next_free(space, block);
    let count = header::live_count(space, page);
    header::set_first_free(space, page, next);
    header::set_live_count(space, page, count + 1);
    store(space, block, 0);
    block
}

/// Hands out the first of the page's blocks of n words that were never handed out.
fn take_fresh(space: &mut Space, page: u64, n: u64) -> u64
    requires can { CanTake space.old page n }
    requires unchained { first_free (word_in space.old) page ≡ 0 }
    ensures takes { TakesFresh (word_in space.old) (word_in space.new) page result n }
    ensures arenas { IsInArenas space.old space.new }
{
    let block = header::first_fresh(space, page);
    let count = header::live_count(space, page);
    header::set_first_fresh(space, page, block + n);
    header::set_live_count(space, page, count + 1);
    store(space, block, 0);
    block
}

/// Hands out a block of the page: a chained one, where there is one.
pub fn take_from(space: &mut Space, page: u64, n: u64) -> u64
    requires { CanTake space.old page n }
    ensures chained { first_free (word_in space.old) page ≢ 0
        → TakesChained (word_in space.old) (word_in space.new) page result }
    ensures fresh { first_free (word_in space.old) page ≡ 0
        → TakesFresh (word_in space.old) (word_in space.new) page result n }
    ensures arenas { IsInArenas space.old space.new }
{
    if header::first_free(space, page) != 0 {
        return take_chained(space, page, n);
    }
    take_fresh(space, page, n)
}

/// What a page with live blocks of n words that ends at `end` is: one with room, or a full one.
pub fn right_kind(space: &Space, page: u64, n: u64, end: u64) -> PageKind
    requires header { HasPageHeader space.now page }
    requires fresh { first_fresh (word_in space.now) page + n < 2 ^ 63 }
    ensures known { (kind_number result ≡ kind_number Room) ⊎
        (kind_number result ≡ kind_number Full) }
    ensures room { kind_number result ≡ kind_number Room
        → (first_free (word_in space.now) page ≢ 0) ⊎ (first_fresh (word_in space.now) page + n ≤
        end) }
    ensures full { kind_number result ≡ kind_number Full
        → (first_free (word_in space.now) page ≡ 0) × (end < first_fresh (word_in space.now) page +
        n) }
{
    if header::first_free(space, page) != 0 {
        return PageKind::Room;
    }
    if header::first_fresh(space, page) + n <= end {
        return PageKind::Room;
    }
    PageKind::Full
}

/// Whether the page of blocks of n words, which has room and ends at `end`, has some for a second
/// block where one is taken.
pub fn keeps_room(space: &Space, page: u64, n: u64, end: u64) -> bool
    requires can { CanTake space.now page n }
    requires n { n < 2 ^ 62 }
    ensures { IsTrue result → KeepsRoom (word_in space.now) page n end }
{
    let first = header::first_free(space, page);
    if first == 0 {
        return header::first_fresh(space, page) + n + n <= end;
    }
    if header::next_free(space, first) != 0 {
        return true;
    }
    header::first_fresh(space, page) + n <= end
}

/// Puts the live block on the page's chain.
pub fn put_on_chain(space: &mut Space, page: u64, block: u64)
    requires { CanPut space.old page block }
    ensures gives { GivesBack (word_in space.old) (word_in space.new) page block }
    ensures arenas { IsInArenas space.old space.new }
{
    let first = header::first_free(space, page);
    let count = header::live_count(space, page);
    store(space, block, Flag::Free.mask());
    header::set_next_free(space, block, first);
    header::set_first_free(space, page, block);
    header::set_live_count(space, page, count - 1);
}

/// Makes the page one of no class, on no list.
pub fn clear_page(space: &mut Space, page: u64)
    requires { HasPageHeader space.old page }
    ensures clears { Clears (word_in space.old) (word_in space.new) page }
    ensures arenas { IsInArenas space.old space.new }
{
    header::set_class(space, page, 0);
    header::set_first_free(space, page, 0);
    header::set_live_count(space, page, 0);
    header::set_first_fresh(space, page, 0);
    header::set_kind(space, page, PageKind::Unused);
}

/// Makes the page, which has no block, one of n words.
pub fn start_class(space: &mut Space, page: u64, n: u64)
    requires { HasPageHeader space.old page }
    ensures starts { Starts (word_in space.old) (word_in space.new) page n }
    ensures arenas { IsInArenas space.old space.new }
{
    header::set_class(space, page, n);
    header::set_first_free(space, page, 0);
    header::set_live_count(space, page, 0);
    header::set_first_fresh(space, page, page + HEADER);
}
