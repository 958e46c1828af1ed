//! The words of a page's header, each read and written under its name. No other file knows at which
//! place of the page a word stands.

ghost use Rattle.std.specs.Prelude.{◌≡◌, ℕ};
ghost use Rattle.size_pages.specs.PageWords.{word_in, IsStored, CanStore, IsInArenas};
ghost use Rattle.size_pages.specs.PageHeader.{class_of, first_free, live_count, first_fresh};
ghost use Rattle.size_pages.specs.PageHeader.{next_of, previous_of, kind_of, next_free};
ghost use Rattle.size_pages.specs.Kinds.{kind_number, HasKind};
ghost use Rattle.size_pages.specs.PageHeader.{first_free_at, live_count_at, first_fresh_at};
ghost use Rattle.size_pages.specs.PageHeader.{next_at, previous_at, kind_at, link_at};

use crate::kinds::PageKind;
use crate::words::{load, store};
use heap_space::Space;

/// The words of a header. Behind them come the blocks.
pub const HEADER: u64 = 8;

/// The words of a block of the page, or 0 where it is unused.
pub fn class(space: &Space, page: u64) -> u64
    requires { CanStore space.now page }
    ensures { result ≡ class_of (word_in space.now) page }
{
    load(space, page)
}

/// The first free block of the page's chain, or 0.
pub fn first_free(space: &Space, page: u64) -> u64
    requires { CanStore space.now (first_free_at page) }
    ensures { result ≡ first_free (word_in space.now) page }
{
    load(space, page + 1)
}

/// How many blocks of the page are live.
pub fn live_count(space: &Space, page: u64) -> u64
    requires { CanStore space.now (live_count_at page) }
    ensures { result ≡ live_count (word_in space.now) page }
{
    load(space, page + 2)
}

/// The first word of the page that was never handed out.
pub fn first_fresh(space: &Space, page: u64) -> u64
    requires { CanStore space.now (first_fresh_at page) }
    ensures { result ≡ first_fresh (word_in space.now) page }
{
    load(space, page + 3)
}

/// The page behind it on its list, or 0.
pub fn next(space: &Space, page: u64) -> u64
    requires { CanStore space.now (next_at page) }
    ensures { result ≡ next_of (word_in space.now) page }
{
    load(space, page + 4)
}

/// The page before it on its list, or 0.
pub fn previous(space: &Space, page: u64) -> u64
    requires { CanStore space.now (previous_at page) }
    ensures { result ≡ previous_of (word_in space.now) page }
{
    load(space, page + 5)
}

/// What the page is.
pub fn kind(space: &Space, page: u64) -> PageKind
    requires { HasKind space.now page }
    ensures { kind_number result ≡ kind_of (word_in space.now) page }
{
    PageKind::of_number(load(space, page + 6))
}

/// The free block behind this one on the chain of its page, or 0.
pub fn next_free(space: &Space, block: u64) -> u64
    requires { CanStore space.now (link_at block) }
    ensures { result ≡ next_free (word_in space.now) block }
{
    load(space, block + 1)
}

/// Writes what `class` reads.
pub fn set_class(space: &mut Space, page: u64, class: u64)
    requires { CanStore space.old page }
    ensures word { IsStored (word_in space.old) (word_in space.new) page class }
    ensures arenas { IsInArenas space.old space.new }
    ensures still { (b : ℕ) → CanStore space.old b → CanStore space.new b }
{
    store(space, page, class);
}

/// Writes what `first_free` reads.
pub fn set_first_free(space: &mut Space, page: u64, block: u64)
    requires { CanStore space.old (first_free_at page) }
    ensures word { IsStored (word_in space.old) (word_in space.new) (first_free_at page) block }
    ensures arenas { IsInArenas space.old space.new }
    ensures still { (b : ℕ) → CanStore space.old b → CanStore space.new b }
{
    store(space, page + 1, block);
}

/// Writes what `live_count` reads.
pub fn set_live_count(space: &mut Space, page: u64, count: u64)
    requires { CanStore space.old (live_count_at page) }
    ensures word { IsStored (word_in space.old) (word_in space.new) (live_count_at page) count }
    ensures arenas { IsInArenas space.old space.new }
    ensures still { (b : ℕ) → CanStore space.old b → CanStore space.new b }
{
    store(space, page + 2, count);
}

/// Writes what `first_fresh` reads.
pub fn set_first_fresh(space: &mut Space, page: u64, block: u64)
    requires { CanStore space.old (first_fresh_at page) }
    ensures word { IsStored (word_in space.old) (word_in space.new) (first_fresh_at page) block }
    ensures arenas { IsInArenas space.old space.new }
    ensures still { (b : ℕ) → CanStore space.old b → CanStore space.new b }
{
    store(space, page + 3, block);
}

/// Writes what `next` reads.
pub fn set_next(space: &mut Space, page: u64, next: u64)
    requires { CanStore space.old (next_at page) }
    ensures word { IsStored (word_in space.old) (word_in space.new) (next_at page) next }
    ensures arenas { IsInArenas space.old space.new }
    ensures still { (b : ℕ) → CanStore space.old b → CanStore space.new b }
{
    store(space, page + 4, next);
}

/// Writes what `previous` reads.
pub fn set_previous(space: &mut Space, page: u64, before: u64)
    requires { CanStore space.old (previous_at page) }
    ensures word { IsStored (word_in space.old) (word_in space.new) (previous_at page) before }
    ensures arenas { IsInArenas space.old space.new }
    ensures still { (b : ℕ) → CanStore space.old b → CanStore space.new b }
{
    store(space, page + 5, before);
}

/// Writes what `kind` reads.
pub fn set_kind(space: &mut Space, page: u64, kind: PageKind)
    requires { CanStore space.old (kind_at page) }
    ensures word { IsStored (word_in space.old) (word_in space.new) (kind_at page)
        (kind_number kind) }
    ensures arenas { IsInArenas space.old space.new }
    ensures still { (b : ℕ) → CanStore space.old b → CanStore space.new b }
{
    store(space, page + 6, kind.number());
}

/// Writes what `next_free` reads.
pub fn set_next_free(space: &mut Space, block: u64, next: u64)
    requires { CanStore space.old (link_at block) }
    ensures word { IsStored (word_in space.old) (word_in space.new) (link_at block) next }
    ensures arenas { IsInArenas space.old space.new }
    ensures still { (b : ℕ) → CanStore space.old b → CanStore space.new b }
{
    store(space, block + 1, next);
}
