//! A block and the place of its first word, which it keeps when its words are given back.
ghost use Rattle.std.specs.Prelude.{◌≡◌, ℕ, ◌<◌, [], length, slice_index, slice_set};

use crate::block::Block;
use std::marker::Model;

/// A block at its place. Without its words it lies nowhere.
#[derive(Drop)]
pub(crate) struct Located {
    base: u64,
    words: Option<Block>,
}

impl Model for Located {
    ghost use Rattle.std.specs.Prelude.{[], unwrap_or};
    ghost use Rattle.heap_space.specs.Places.{Placed};

    ghost Value = { Placed };

    ghost view = { λ l. record { base = l.base; words = unwrap_or l.words [] } };
}

impl Located {
    /// This block, its first word at the place `base`.
    pub(crate) fn new(base: u64, words: Block) -> Located
        ensures { result ≡ record { base = base; words = words } }
    {
        Located {
            base,
            words: Some(words),
        }
    }

    /// The place of its first word.
    #[inline]
    pub(crate) fn base(&self) -> u64
        ensures { result ≡ self.now.base }
    {
        self.base
    }

    /// The number of its words.
    #[inline]
    pub(crate) fn len(&self) -> u64
        ensures { result ≡ length self.now.words }
    {
        match &self.words {
            Some(words) => words.len() as u64,
            None => 0,
        }
    }

    /// Its word number `offset`.
    #[inline]
    pub(crate) fn read(&self, offset: usize) -> u64
        requires { offset < length self.now.words }
        ensures { result ≡ slice_index self.now.words offset }
    {
        match &self.words {
            Some(words) => words.read(offset),
            None => unreachable!(),
        }
    }

    /// Its word number `offset` is v from then on, and every other word stays.
    #[inline]
    pub(crate) fn write(&mut self, offset: usize, v: u64)
        requires { offset < length self.old.words }
        ensures { self.new ≡ record self.old { words = slice_set self.old.words offset v } }
    {
        match &mut self.words {
            Some(words) => words.write(offset, v),
            None => unreachable!(),
        }
    }

    /// Gives its words back to the machine.
    pub(crate) fn empty(&mut self)
        ensures { self.new ≡ record self.old { words = [] } }
    {
        self.words = None;
    }
}
