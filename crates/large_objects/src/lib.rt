//! Large blocks: each object above the largest size class has a block of its own in the space. The
//! blocks are found by their places. A sweep goes over them by rising place: those that were there
//! when it began and were not swept yet wait.
#![tactic(auto)]

ghost use Rattle.std.specs.Prelude.{◌≡◌, ℕ, ◌+◌, ◌<◌, ◌≤◌, ◌↔◌, List, [], ◌∷◌, ◌++◌, length, IfOk, OnOk, OnErr, IsTrue, Contains};
ghost use Rattle.heap_space.specs.Places.{has, word_at};
ghost use Rattle.heap_space.specs.Memory.{Memory, with_large, without_large};
ghost use Rattle.heap_space.specs.Extents.{Extent, begins_between, KeepsOutside, KeepsWords};
ghost use Rattle.large_objects.specs.Blocks.{larges_of, places_of, begin_elsewhere, without_place, ListsBlocks};
ghost use Rattle.large_objects.specs.Sweep.{unvisited, swept, left_over, freed_births};

use heap_space::Space;
use object_header::{Flag, clear, survives_sweep};
use std::alloc::{AllocError, Global};
use std::collections::BTreeMap;

/// The large blocks of a space, and which of them wait to be swept.
#[derive(Drop)]
pub struct Large {
    /// The words of each block, by its place.
    blocks: BTreeMap<u64, u64>,
    /// The blocks that wait begin from here on and below `wait_end`.
    wait_from: u64,
    wait_end: u64,
    /// How many they are.
    waiting: u64,
}

impl Large {
    ghost use Rattle.large_objects.specs.Large.{HasBlocks, Stands, IsLive, NoneWaits, IsNext, waiting_count};

    /// No block. The error is out of memory, which does not come as long as this allocates nothing.
    pub fn new(alloc: Global) -> Result<Large, AllocError>
        ensures { IfOk result (λ large. (m : Memory) → larges_of m ≡ [] → HasBlocks large m [] []) }
    {
        Ok(Large {
            blocks: BTreeMap::new(alloc),
            wait_from: 0,
            wait_end: 0,
            waiting: 0,
        })
    }

    /// Adds a block of n words, all 0, to the space, and answers its place. It lies above all others
    /// and does not wait.
    ///
    /// The error is out of memory. Blocks and words are then as they were; the next block's place may
    /// have moved on.
    pub fn take(&mut self, space: &mut Space, n: u64) -> Result<u64, AllocError>
        requires stands { Stands self.old space.old }
        requires n { (2 ≤ n) × (n ≤ 16777219) }
        ensures stands { Stands self.new space.new }
        ensures taken { (live : List Extent) (waiting : List ℕ) → HasBlocks self.old space.old live waiting → IfOk result (λ a. HasBlocks self.new space.new ((a, n) ∷ live) waiting) }
        ensures place { IfOk result (λ a. (a ≡ space.old.next_large) × (space.new ≡ with_large space.old n)) }
        ensures cleared { IfOk result (λ a. word_at space.new.blocks a ≡ 0) }
        ensures err { (live : List Extent) (waiting : List ℕ) → HasBlocks self.old space.old live waiting → OnErr result (HasBlocks self.new space.new live waiting) }
        ensures same { OnErr result (space.new ≡ record space.old { next_large = space.new.next_large }) }
        ensures outside { KeepsOutside 1099511627776 9223372036854775808 space.old space.new }
        ensures kept { (live : List Extent) (waiting : List ℕ) → HasBlocks self.old space.old live waiting → KeepsWords space.old space.new live }
    {
        let _in_order = space.arena_words();
        let a = space.add_large(n)?;
        match self.blocks.insert(a, n) {
            Ok(_) => {
                self.wait_end = self.wait_end.min(a);
                Ok(a)
            }
            Err(_) => {
                space.drop_large(a);
                Err(AllocError)
            }
        }
    }

    /// Takes the block, which is live, off the space. It does not allocate.
    pub fn give_back(&mut self, space: &mut Space, a: u64, n: u64)
        requires { IsLive self.old space.old (a, n) }
        ensures stands { Stands self.new space.new }
        ensures given { (live : List Extent) (waiting : List ℕ) → HasBlocks self.old space.old ((a, n) ∷ live) waiting → HasBlocks self.new space.new live (without_place a waiting) }
        ensures space { space.new ≡ without_large space.old a }
        ensures outside { KeepsOutside 1099511627776 9223372036854775808 space.old space.new }
        ensures kept { (live : List Extent) (waiting : List ℕ) → HasBlocks self.old space.old ((a, n) ∷ live) waiting → KeepsWords space.old space.new live }
    {
        let _in_order = space.arena_words();
        self.blocks.remove(&a);
        self.waiting -= self.is_waiting(a) as u64;
        space.drop_large(a);
    }

    /// Appends the live blocks, as places and words, by rising place. After the error, which is out
    /// of memory, the list is as it was.
    pub fn live_blocks(&self, space: &Space, out: &mut Vec<(u64, u64)>) -> Result<(), AllocError>
        requires { Stands self.now space.now }
        ensures found { (live : List Extent) (waiting : List ℕ) → HasBlocks self.now space.now live waiting → OnOk result (ListsBlocks out.old.items out.new.items live) }
        ensures err { OnErr result (out.new.items ≡ out.old.items) }
    {
        out.reserve(self.blocks.len())?;
        for (a, n) in &self.blocks {
            out.push((*a, *n)).unwrap();
        }
        Ok(())
    }

    /// Each block that is there waits from then on. It does not allocate.
    pub fn begin_sweep(&mut self, space: &mut Space)
        requires { NoneWaits self.old space.old }
        ensures stands { Stands self.new space.new }
        ensures begun { (live : List Extent) → HasBlocks self.old space.old live [] → HasBlocks self.new space.new live (places_of (larges_of space.old)) }
        ensures space { space.new ≡ space.old }
    {
        self.wait_from = 0;
        self.wait_end = u64::MAX;
        self.waiting = self.blocks.len() as u64;
    }

    /// Sweeps the waiting block of lowest place. Where its object was neither visited nor is a reserved
    /// home, the object's birth is appended and the block goes; else it is not visited any more.
    ///
    /// The error is out of memory, and changes nothing.
    pub fn sweep_block(&mut self, space: &mut Space, freed: &mut Vec<u64>) -> Result<(), AllocError>
        requires stands { Stands self.old space.old }
        requires some { 0 < waiting_count self.old }
        ensures stands { Stands self.new space.new }
        ensures swept { (live : List Extent) (a : ℕ) (waiting : List ℕ) → HasBlocks self.old space.old live (a ∷ waiting) → OnOk result (HasBlocks self.new space.new (left_over space.old a live) waiting) }
        ensures space { (live : List Extent) (a : ℕ) (waiting : List ℕ) → HasBlocks self.old space.old live (a ∷ waiting) → OnOk result (space.new ≡ swept space.old a) }
        ensures births { (live : List Extent) (a : ℕ) (waiting : List ℕ) → HasBlocks self.old space.old live (a ∷ waiting) → OnOk result (freed.new.items ≡ freed.old.items ++ freed_births space.old a) }
        ensures outside { KeepsOutside 1099511627776 9223372036854775808 space.old space.new }
        ensures err { OnErr result ((self.new ≡ self.old) × (space.new ≡ space.old) × (freed.new.items ≡ freed.old.items)) }
    {
        let a = self.lowest_waiting(space);
        let header = space.read(a);
        if survives_sweep(header) {
            self.keep(space, a);
            return Ok(());
        }
        freed.push(space.read(a + 1))?;
        self.free(space, a);
        Ok(())
    }

    /// The place of the first block that waits.
    fn lowest_waiting(&self, space: &Space) -> u64
        requires stands { Stands self.now space.now }
        requires some { 0 < waiting_count self.now }
        ensures { IsNext self.now space.now result }
    {
        match self.blocks.range(self.wait_from..).next() {
            Some((a, _)) => *a,
            None => unreachable!(),
        }
    }

    /// The block at a, the first that waits, is not visited any more, and does not wait.
    fn keep(&mut self, space: &mut Space, a: u64)
        requires { IsNext self.old space.old a }
        ensures kept { (live : List Extent) (waiting : List ℕ) → HasBlocks self.old space.old live (a ∷ waiting) → HasBlocks self.new space.new live waiting }
        ensures space { space.new ≡ unvisited space.old a }
    {
        let header = space.read(a);
        space.write(a, clear(header, Flag::Visited));
        self.wait_from = a + 1;
        self.waiting -= 1;
    }

    /// The block at a, the first that waits, goes.
    fn free(&mut self, space: &mut Space, a: u64)
        requires { IsNext self.old space.old a }
        ensures freed { (live : List Extent) (waiting : List ℕ) → HasBlocks self.old space.old live (a ∷ waiting) → HasBlocks self.new space.new (begin_elsewhere a live) waiting }
        ensures space { space.new ≡ without_large space.old a }
        ensures outside { KeepsOutside 1099511627776 9223372036854775808 space.old space.new }
    {
        let _in_order = space.arena_words();
        self.blocks.remove(&a);
        self.wait_from = a + 1;
        self.waiting -= 1;
        space.drop_large(a);
    }

    /// The number of blocks that wait.
    pub fn waiting(&self) -> u64
        ensures count { result ≡ waiting_count self.now }
        ensures waits { (m : Memory) (live : List Extent) (waiting : List ℕ) → HasBlocks self.now m live waiting → result ≡ length waiting }
    {
        self.waiting
    }

    /// Whether the block at a, which is live, waits. It does not allocate.
    pub fn waits(&self, space: &Space, a: u64) -> bool
        requires { (n : ℕ) × IsLive self.now space.now (a, n) }
        ensures { (live : List Extent) (waiting : List ℕ) → HasBlocks self.now space.now live waiting → IsTrue result ↔ Contains waiting a }
    {
        self.is_waiting(a)
    }

    /// Whether a block that begins at a waits.
    fn is_waiting(&self, a: u64) -> bool
        ensures { result ≡ begins_between self.now.wait_from self.now.wait_end (a, 0) }
    {
        self.wait_from <= a && a < self.wait_end
    }
}
