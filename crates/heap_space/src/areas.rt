//! The three areas of places: the nursery from place 1 on, the arenas side by side from 2^32 on,
//! and the large blocks from 2^40 on, each where the one added before it ended. A large block that
//! was given back stays in its list without words, until the list is compacted.
ghost use Rattle.std.specs.Prelude.{◌≡◌, ◌+◌, ◌*◌, ◌/◌, ◌^◌, ◌<◌, ◌≤◌, length, slice_index_or, nat_le, IfOk, IfErr, IfSome, IsTrue};
ghost use Rattle.heap_space.specs.Places.{Placed, covers, has, word_at, with_word, is_base};
ghost use Rattle.heap_space.specs.Memory.{fresh_memory, with_arena, with_large};
ghost use Rattle.heap_space.specs.Order.{IsInOrder};
ghost use Rattle.heap_space.specs.Areas.{IsShift};
ghost use Rattle.heap_space.specs.Seats.{AreLarges, PartsAt, has_words, with_emptied, seen};

use crate::block::{Block, MOST_WORDS};
use crate::located::Located;
use std::alloc::{AllocError, Global};
use std::marker::Model;

/// The place of the first arena.
pub(crate) const FIRST_ARENA: u64 = 4_294_967_296;

/// The place of the first large block.
pub(crate) const FIRST_LARGE: u64 = 1_099_511_627_776;

/// Above all places.
const END_OF_PLACES: u64 = 9_223_372_036_854_775_808;

/// Blocks at their places, and where the next ones begin.
#[derive(Drop)]
pub(crate) struct Areas {
    pub(crate) nursery: Block,
    pub(crate) arenas: Vec<Located>,
    pub(crate) larges: Vec<Located>,
    pub(crate) arena_words: u64,
    // By how many bits a number is shifted to be divided by `arena_words`, where that is a power of two.
    arena_shift: Option<u32>,
    next_large: u64,
    alloc: Global,
}

impl Model for Areas {
    ghost use Rattle.heap_space.specs.Memory.{Memory};
    ghost use Rattle.heap_space.specs.Areas.{memory_of, HasAreas};

    ghost Value = { Memory };

    ghost view = { memory_of };

    ghost invariant = { HasAreas };
}

impl Areas {
    /// A nursery of so many words, all 0, and nothing else.
    pub(crate) fn new(alloc: Global, nursery: u64, arena_words: u64) -> Result<Areas, AllocError>
        requires nursery { (16 ≤ nursery) × (nursery ≤ 1048576) }
        requires arena { (0 < arena_words) × (arena_words ≤ MOST_WORDS) }
        ensures { IfOk result (λ m. m ≡ fresh_memory nursery arena_words) }
    {
        let words = Block::zeroed(alloc, nursery as usize)?;
        Ok(Areas {
            nursery: words,
            arenas: Vec::new(alloc),
            larges: Vec::new(alloc),
            arena_words,
            arena_shift: shift_of(arena_words),
            next_large: FIRST_LARGE,
            alloc,
        })
    }

    /// The words of an arena. With it a caller learns how the blocks lie.
    pub(crate) fn arena_words(&self) -> u64
        ensures value { result ≡ self.now.arena_words }
        ensures ordered { IsInOrder self.now }
    {
        self.arena_words
    }

    /// Adds an arena, its words 0, and answers its place.
    pub(crate) fn add_arena(&mut self) -> Result<u64, AllocError>
        ensures ok { IfOk result (λ a. (a ≡ self.old.next_arena) × (self.new ≡ with_arena self.old)) }
        ensures err { IfErr result (λ _. self.new ≡ self.old) }
        ensures ordered { IsInOrder self.new }
    {
        let base = FIRST_ARENA + self.arenas.len() as u64 * self.arena_words;
        if FIRST_LARGE - base < self.arena_words {
            return Err(AllocError);
        }
        let words = Block::zeroed(self.alloc, self.arena_words as usize)?;
        self.arenas.push(Located::new(base, words))?;
        Ok(base)
    }

    /// Adds a large block of n words, all 0, and answers its place.
    pub(crate) fn add_large(&mut self, n: u64) -> Result<u64, AllocError>
        requires { (1 ≤ n) × (n ≤ MOST_WORDS) }
        ensures ok { IfOk result (λ a. (a ≡ self.old.next_large) × (self.new ≡ with_large self.old n)) }
        ensures err { IfErr result (λ _. self.new ≡ self.old) }
        ensures ordered { IsInOrder self.new }
    {
        let base = self.next_large;
        if END_OF_PLACES - base <= n {
            return Err(AllocError);
        }
        let words = Block::zeroed(self.alloc, n as usize)?;
        self.larges.push(Located::new(base, words))?;
        self.next_large = base + n;
        Ok(base)
    }

    /// Gives the words of the large block at a back to the machine.
    pub(crate) fn empty_large(&mut self, a: u64)
        requires { (FIRST_LARGE ≤ a) × IsTrue (is_base self.old.blocks a) }
        ensures { self.new ≡ with_emptied self.old a }
    {
        let index = large_index(&self.larges, a);
        let large = &mut self.larges[index];
        large.empty();
    }

    /// Takes the blocks without words off the list of large ones, and answers how many are left.
    pub(crate) fn compact(&mut self) -> usize
        ensures { seen self.new ≡ seen self.old }
    {
        self.larges.retain(
            |large: &Located| -> bool
                ensures { result ≡ has_words large.now }
            { large.len() > 0 },
        );
        self.larges.len()
    }

    /// The word at a.
    #[inline]
    pub(crate) fn read(&self, a: u64) -> u64
        requires { IsTrue (has self.now.blocks a) }
        ensures { result ≡ word_at self.now.blocks a }
    {
        if a < FIRST_ARENA {
            return self.nursery.read((a - 1) as usize);
        }
        if a < FIRST_LARGE {
            return self.read_arena(a);
        }
        self.read_large(a)
    }

    // The word at a place of the arenas.
    #[inline]
    fn read_arena(&self, a: u64) -> u64
        requires held { IsTrue (has self.now.blocks a) }
        requires among { (FIRST_ARENA ≤ a) × (a < FIRST_LARGE) }
        ensures { result ≡ word_at self.now.blocks a }
    {
        let distance = a - FIRST_ARENA;
        let number = self.arena_number(distance);
        let offset = distance - number * self.arena_words;
        self.arenas[number as usize].read(offset as usize)
    }

    // The word at a place of the large blocks.
    fn read_large(&self, a: u64) -> u64
        requires held { IsTrue (has self.now.blocks a) }
        requires among { FIRST_LARGE ≤ a }
        ensures { result ≡ word_at self.now.blocks a }
    {
        let large = &self.larges[large_index(&self.larges, a)];
        large.read((a - large.base()) as usize)
    }

    /// The word at a is v from then on, and every other word stays.
    #[inline]
    pub(crate) fn write(&mut self, a: u64, v: u64)
        requires { IsTrue (has self.old.blocks a) }
        ensures { self.new ≡ record self.old { blocks = with_word self.old.blocks a v } }
    {
        if a < FIRST_ARENA {
            self.nursery.write((a - 1) as usize, v);
            return;
        }
        if a < FIRST_LARGE {
            return self.write_arena(a, v);
        }
        self.write_large(a, v);
    }

    // The word at a place of the arenas is v from then on.
    #[inline]
    fn write_arena(&mut self, a: u64, v: u64)
        requires held { IsTrue (has self.old.blocks a) }
        requires among { (FIRST_ARENA ≤ a) × (a < FIRST_LARGE) }
        ensures { self.new ≡ record self.old { blocks = with_word self.old.blocks a v } }
    {
        let distance = a - FIRST_ARENA;
        let number = self.arena_number(distance);
        let offset = distance - number * self.arena_words;
        self.arenas[number as usize].write(offset as usize, v);
    }

    // The word at a place of the large blocks is v from then on.
    fn write_large(&mut self, a: u64, v: u64)
        requires held { IsTrue (has self.old.blocks a) }
        requires among { FIRST_LARGE ≤ a }
        ensures { self.new ≡ record self.old { blocks = with_word self.old.blocks a v } }
    {
        let index = large_index(&self.larges, a);
        let holder = &mut self.larges[index];
        let offset = a - holder.base();
        holder.write(offset as usize, v);
    }

    /// Whether a lies in a block.
    #[inline]
    pub(crate) fn has(&self, a: u64) -> bool
        ensures { result ≡ has self.now.blocks a }
    {
        if a < FIRST_ARENA {
            1 <= a && a - 1 < self.nursery.len() as u64
        } else if a < FIRST_LARGE {
            self.arena_number(a - FIRST_ARENA) < self.arenas.len() as u64
        } else {
            has_large(&self.larges, a)
        }
    }

    // In which arena the place so many words behind the first arena's lies, if it lies in one.
    #[inline]
    pub(crate) fn arena_number(&self, distance: u64) -> u64
        ensures { result ≡ distance / self.now.arena_words }
    {
        match self.arena_shift {
            Some(shift) => distance >> shift,
            None => distance / self.arena_words,
        }
    }
}

// By how many bits a number is shifted to be divided by n, where n is a power of two.
fn shift_of(n: u64) -> Option<u32>
    ensures { IfSome result (IsShift n) }
{
    for shift in 0..63 {
        if 1 << shift == n {
            return Some(shift);
        }
    }
    None
}

// How many of the large blocks begin at a or below.
fn count_to(larges: &[Located], a: u64) -> usize
    requires { AreLarges larges.now }
    ensures bound { result ≤ length larges.now }
    ensures parts { PartsAt larges.now a result }
{
    larges.partition_point(
        |large: &Located| -> bool
            ensures { result ≡ nat_le large.now.base a }
        { large.base() <= a },
    )
}

// The number of the large block that has the place a.
pub(crate) fn large_index(larges: &[Located], a: u64) -> usize
    requires larges { AreLarges larges.now }
    requires held { IsTrue (has larges.now a) }
    ensures inside { result < length larges.now }
    ensures found { (d : Placed) → IsTrue (covers (slice_index_or larges.now result d) a) }
{
    count_to(larges, a) - 1
}

// Whether a lies in a large block.
fn has_large(larges: &[Located], a: u64) -> bool
    requires { AreLarges larges.now }
    ensures { result ≡ has larges.now a }
{
    let count = count_to(larges, a);
    if count == 0 {
        return false;
    }
    let large = &larges[count - 1];
    a - large.base() < large.len()
}
