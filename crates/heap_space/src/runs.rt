//! Runs of words that lie in one block. They are copied and filled by seats, so that the block of each
//! run is looked up once.
ghost use Rattle.std.specs.Prelude.{◌≡◌, ℕ, ◌+◌, ◌*◌, ◌/◌, ◌^◌, ◌<◌, ◌≤◌, replicate, IsTrue};
ghost use Rattle.heap_space.specs.Places.{has, word_at, with_word, lies_in_one, run_at, with_run};
ghost use Rattle.heap_space.specs.Seats.{IsSeat};

use crate::areas::{Areas, FIRST_ARENA, FIRST_LARGE, large_index};

/// A block, by its number in the order of places, and the number of a word in it.
#[derive(Clone, Copy)]
struct Seat {
    block: usize,
    offset: usize,
}

impl Areas {
    /// Copies n words to the places from `to` on. All are read as they were before.
    pub(crate) fn copy_words(&mut self, from: u64, to: u64, n: u64)
        requires source { IsTrue (lies_in_one self.old.blocks from n) }
        requires target { IsTrue (lies_in_one self.old.blocks to n) }
        ensures { self.new ≡ record self.old { blocks = with_run self.old.blocks to (run_at self.old.blocks from n) } }
    {
        if n == 0 {
            return;
        }
        if to <= from {
            self.copy_first_on(from, to, n);
        } else {
            self.copy_last_back(from, to, n);
        }
    }

    // Copies n words to places that are not behind theirs, the first word first.
    fn copy_first_on(&mut self, from: u64, to: u64, n: u64)
        requires some { 0 < n }
        requires source { IsTrue (lies_in_one self.old.blocks from n) }
        requires target { IsTrue (lies_in_one self.old.blocks to n) }
        requires order { to ≤ from }
        ensures { self.new ≡ record self.old { blocks = with_run self.old.blocks to (run_at self.old.blocks from n) } }
    {
        let source = self.run_seat(from, n);
        let target = self.run_seat(to, n);
        for k in 0..n {
            let word = self.word(source.after(k));
            self.set_word(target.after(k), word);
        }
    }

    // Copies n words to places that are not before theirs, the last word first.
    fn copy_last_back(&mut self, from: u64, to: u64, n: u64)
        requires some { 0 < n }
        requires source { IsTrue (lies_in_one self.old.blocks from n) }
        requires target { IsTrue (lies_in_one self.old.blocks to n) }
        requires order { from ≤ to }
        ensures { self.new ≡ record self.old { blocks = with_run self.old.blocks to (run_at self.old.blocks from n) } }
    {
        let source = self.run_seat(from, n);
        let target = self.run_seat(to, n);
        for step in 0..n {
            let last = n - 1 - step;
            let word = self.word(source.after(last));
            self.set_word(target.after(last), word);
        }
    }

    /// The n words from a on are 0 from then on, and every other word stays.
    pub(crate) fn fill_zero(&mut self, a: u64, n: u64)
        requires { IsTrue (lies_in_one self.old.blocks a n) }
        ensures { self.new ≡ record self.old { blocks = with_run self.old.blocks a (replicate n 0) } }
    {
        if n == 0 {
            return;
        }
        if a < FIRST_ARENA {
            self.nursery.fill_zero((a - 1) as usize, n as usize);
            return;
        }
        let first = self.run_seat(a, n);
        for k in 0..n {
            self.set_word(first.after(k), 0);
        }
    }

    // The seat of the first of n places that lie in one block.
    fn run_seat(&self, a: u64, n: u64) -> Seat
        requires some { 0 < n }
        requires together { IsTrue (lies_in_one self.now.blocks a n) }
        ensures seats { (j : ℕ) → j < n → IsSeat self.now.blocks (a + j) result.block (result.offset + j) }
        ensures small { result.offset + n < 2 ^ 64 }
    {
        let _arena_words = self.arena_words;
        self.seat(a)
    }

    // The seat of a place.
    #[inline]
    fn seat(&self, a: u64) -> Seat
        requires { IsTrue (has self.now.blocks a) }
        ensures { IsSeat self.now.blocks a result.block result.offset }
    {
        if a < FIRST_ARENA {
            Seat {
                block: 0,
                offset: (a - 1) as usize,
            }
        } else if a < FIRST_LARGE {
            let distance = a - FIRST_ARENA;
            let number = self.arena_number(distance);
            Seat {
                block: number as usize + 1,
                offset: (distance - number * self.arena_words) as usize,
            }
        } else {
            let index = large_index(&self.larges, a);
            Seat {
                block: self.arenas.len() + index + 1,
                offset: (a - self.larges[index].base()) as usize,
            }
        }
    }

    // The word at a seat.
    #[inline]
    fn word(&self, seat: Seat) -> u64
        requires { (a : ℕ) × IsSeat self.now.blocks a seat.block seat.offset }
        ensures { (a : ℕ) → IsSeat self.now.blocks a seat.block seat.offset → result ≡ word_at self.now.blocks a }
    {
        let arenas = self.arenas.len();
        if seat.block == 0 {
            self.nursery.read(seat.offset)
        } else if seat.block <= arenas {
            self.arenas[seat.block - 1].read(seat.offset)
        } else {
            self.larges[seat.block - 1 - arenas].read(seat.offset)
        }
    }

    // The word at a seat is v from then on.
    #[inline]
    fn set_word(&mut self, seat: Seat, v: u64)
        requires { (a : ℕ) × IsSeat self.old.blocks a seat.block seat.offset }
        ensures { (a : ℕ) → IsSeat self.old.blocks a seat.block seat.offset
            → self.new ≡ record self.old { blocks = with_word self.old.blocks a v } }
    {
        let arenas = self.arenas.len();
        if seat.block == 0 {
            self.nursery.write(seat.offset, v);
        } else if seat.block <= arenas {
            self.arenas[seat.block - 1].write(seat.offset, v);
        } else {
            self.larges[seat.block - 1 - arenas].write(seat.offset, v);
        }
    }
}

impl Seat {
    // The seat k places further on.
    #[inline]
    fn after(self, k: u64) -> Seat
        requires { self.offset + k < 2 ^ 64 }
        ensures { result ≡ record { block = self.block; offset = self.offset + k } }
    {
        Seat {
            block: self.block,
            offset: self.offset + k as usize,
        }
    }
}
