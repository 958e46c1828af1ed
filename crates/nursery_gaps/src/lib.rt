//! The nursery hands out words by moving a cursor upwards. Its words are the places 1 to `words`.
//! Pinned ranges stay where they are and leave gaps between them. Within the current gap a request
//! moves the cursor alone. Where that gap has too few words left the cursor goes on to the first
//! later gap that has enough, and what it passed over stays unused until the next reset, as in
//! PyPy. What was handed out from one gap lies together, and is one used range.
#![tactic(auto)]

ghost use Rattle.std.specs.Prelude.{◌≡◌, ℕ, ◌+◌, ◌*◌, ◌<◌, ◌≤◌, ◌↔◌, IsTrue, IfOk, IfSome, IfNone, length, slice_get};
ghost use Rattle.nursery_gaps.specs.Ranges.{AreRising};
ghost use Rattle.nursery_gaps.specs.Nursery.{unused, Fits, FitsLowest, HandsOut, IsLaidOut, spare_words};

mod gaps;

use gaps::{append, first_gap, free_between, pass};
use std::alloc::{AllocError, Global};
use std::marker::Model;

/// A nursery. Contracts see the numbers that it was made with, the list of its used ranges by
/// rising place, where the current gap begins, and the cursor.
///
/// The used ranges are the pinned ones, as the last `reset` was given them, and for each gap from
/// which words were handed out since one range of those words.
#[derive(Drop)]
pub struct Nursery {
    words: u64,
    pins: u64,
    /// The used ranges below the current gap.
    below: Vec<(u64, u64)>,
    /// All pinned ranges, and how many of them lie below the current gap.
    pinned: Vec<(u64, u64)>,
    passed: usize,
    /// Where the current gap begins. Its words below the cursor were handed out.
    gap: u64,
    cursor: u64,
}

impl Model for Nursery {
    ghost use Rattle.std.specs.Prelude.{◌++◌, drop};
    ghost use Rattle.nursery_gaps.specs.Ranges.{words_between};
    ghost use Rattle.nursery_gaps.specs.Nursery.{Layout};

    ghost Value = { Layout };

    ghost use Rattle.nursery_gaps.specs.Fields.{IsKept};

    ghost view = { λ n. record {
      words = n.words;
      pins = n.pins;
      used = n.below.items ++ words_between n.gap n.cursor ++ drop n.passed n.pinned.items;
      gap = n.gap;
      cursor = n.cursor;
    } };

    ghost invariant = { IsKept };
}

impl Nursery {
    /// A nursery of which no word is used. It makes room for the greatest number of used ranges,
    /// so that no other call allocates.
    pub fn new(alloc: Global, words: u64, pins: u64) -> Result<Nursery, AllocError>
        requires least { 16 ≤ words }
        requires most { words ≤ 1048576 }
        requires few { pins ≤ 1024 }
        ensures made { IfOk result (λ nursery. nursery ≡ unused words pins) }
        ensures stands { IfOk result IsLaidOut }
    {
        Ok(Nursery {
            words,
            pins,
            below: Vec::with_capacity(alloc, 2 * pins as usize)?,
            pinned: Vec::with_capacity(alloc, pins as usize)?,
            passed: 0,
            gap: 1,
            cursor: 1,
        })
    }

    /// Hands out `n` words at the lowest place at or above the cursor at which so many are free,
    /// and puts the cursor behind them. Where no such place is left it is `None` and changes
    /// nothing. It takes constant time, but where it leaves the current gap.
    pub fn bump(&mut self, n: u64) -> Option<u64>
        requires { 0 < n }
        ensures lowest { IfSome result (FitsLowest self.old n) }
        ensures handed { IfSome result (λ place. HandsOut self.old n place self.new) }
        ensures none { IfNone result ((place : ℕ) → ¬ Fits self.old n place) }
        ensures unchanged { IfNone result (self.new ≡ self.old) }
        ensures stands { IsLaidOut self.new }
    {
        let ranges = &self.pinned[self.passed..];
        let found = first_gap(ranges, self.cursor, self.words + 1, n)?;
        if found.passed == 0 {
            self.cursor += n;
            return Some(found.place);
        }
        let passed = &ranges[..found.passed];
        pass(&mut self.below, self.gap, self.cursor, passed);
        self.passed += found.passed;
        self.gap = found.place;
        self.cursor = found.place + n;
        Some(found.place)
    }

    /// Gives all words back but those of the pinned ranges, of a place and a number of words each,
    /// and puts the cursor at 1.
    pub fn reset(&mut self, pinned: &[(u64, u64)])
        requires rising { AreRising 1 (self.old.words + 1) pinned.now }
        requires few { length pinned.now ≤ self.old.pins }
        ensures reset { self.new ≡ record self.old { used = pinned.now; gap = 1; cursor = 1 } }
        ensures stands { IsLaidOut self.new }
    {
        self.below.clear();
        self.pinned.clear();
        append(&mut self.pinned, pinned);
        self.passed = 0;
        self.gap = 1;
        self.cursor = 1;
    }

    /// Whether the place is one of the nursery's words.
    pub fn holds(&self, a: u64) -> bool
        ensures { IsTrue result ↔ ((1 ≤ a) × (a ≤ self.now.words)) }
    {
        1 <= a && a <= self.words
    }

    /// The used range number `k`, counted from 0 by rising place, as its place and its words.
    /// `None` exactly where there are at most `k` used ranges.
    pub fn used_range(&self, k: u64) -> Option<(u64, u64)>
        ensures { result ≡ slice_get self.now.used k }
    {
        let below = self.below.len() as u64;
        if k < below {
            return Some(self.below[k as usize]);
        }
        let mut above = k - below;
        if self.gap < self.cursor {
            if above == 0 {
                return Some((self.gap, self.cursor - self.gap));
            }
            above -= 1;
        }
        self.pinned[self.passed..].get(above as usize).copied()
    }

    /// How many of the nursery's words at or above the cursor are not used.
    pub fn spare(&self) -> u64
        ensures { result ≡ spare_words self.now }
    {
        free_between(&self.pinned[self.passed..], self.cursor, self.words + 1)
    }
}
