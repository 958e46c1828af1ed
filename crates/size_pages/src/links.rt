//! The lists of pages. They are linked both ways through words 4 and 5 of the headers, and word 6
//! says on which list a page is.

ghost use Rattle.std.specs.Prelude.{◌≡◌, ◌≢◌, ℕ, ◌+◌, ◌<◌, slice_index, vec_len};
ghost use Rattle.size_pages.specs.PageWords.{word_in, CanStore, IsInArenas};
ghost use Rattle.size_pages.specs.PageHeader.{next_of, previous_of, next_at, previous_at};
ghost use Rattle.size_pages.specs.Kinds.{kind_number};
ghost use Rattle.size_pages.specs.PageLists.{Unlinks, Links};
ghost use Rattle.size_pages.specs.Steps.{CanUnlink, CanLink};

use crate::header;
use crate::kinds::PageKind;
use heap_space::Space;

/// The first page of the list, or 0.
pub fn first(heads: &Vec<u64>, list: usize) -> u64
    requires { list < vec_len heads.now }
    ensures { result ≡ slice_index heads.now.items list }
{
    heads[list]
}

/// Makes `next` follow `before`, or come first where there is none.
fn link_forth(heads: &mut Vec<u64>, space: &mut Space, list: usize, before: u64, next: u64)
    requires list { before ≡ 0 → list < vec_len heads.old }
    requires page { before ≢ 0 → CanStore space.old (next_at before) }
    ensures size { vec_len heads.new ≡ vec_len heads.old }
    ensures first { before ≡ 0 → slice_index heads.new.items list ≡ next }
    ensures not_first { before ≢ 0
        → slice_index heads.new.items list ≡ slice_index heads.old.items list }
    ensures others { (t : ℕ) → t ≢ list
        → slice_index heads.new.items t ≡ slice_index heads.old.items t }
    ensures forth { before ≢ 0 → next_of (word_in space.new) before ≡ next }
    ensures rest { (e : ℕ) → e ≢ next_at before → word_in space.new e ≡ word_in space.old e }
    ensures arenas { IsInArenas space.old space.new }
    ensures still { (b : ℕ) → CanStore space.old b → CanStore space.new b }
{
    if before == 0 {
        heads[list] = next;
    } else {
        header::set_next(space, before, next);
    }
}

/// Makes `next`, where it is a page, name `before`.
fn link_back(space: &mut Space, next: u64, before: u64)
    requires page { next ≢ 0 → CanStore space.old (previous_at next) }
    ensures back { next ≢ 0 → previous_of (word_in space.new) next ≡ before }
    ensures rest { (e : ℕ) → e ≢ previous_at next → word_in space.new e ≡ word_in space.old e }
    ensures arenas { IsInArenas space.old space.new }
    ensures still { (b : ℕ) → CanStore space.old b → CanStore space.new b }
{
    if next != 0 {
        header::set_previous(space, next, before);
    }
}

/// Takes the page off the list.
pub fn unlink(heads: &mut Vec<u64>, space: &mut Space, page: u64, list: usize)
    requires { CanUnlink space.old heads.old.items page list }
    ensures unlinks { Unlinks (word_in space.old) (word_in space.new) heads.old.items
        heads.new.items page list }
    ensures arenas { IsInArenas space.old space.new }
{
    let next = header::next(space, page);
    let before = header::previous(space, page);
    link_forth(heads, space, list, before, next);
    link_back(space, next, before);
}

/// Puts the page in front of the list.
pub fn link(heads: &mut Vec<u64>, space: &mut Space, page: u64, list: usize, kind: PageKind)
    requires { CanLink space.old heads.old.items page list }
    ensures links { Links (word_in space.old) (word_in space.new) heads.old.items heads.new.items
        page list (kind_number kind) }
    ensures arenas { IsInArenas space.old space.new }
{
    let next = first(heads, list);
    header::set_next(space, page, next);
    header::set_previous(space, page, 0);
    header::set_kind(space, page, kind);
    link_back(space, next, page);
    heads[list] = page;
}
