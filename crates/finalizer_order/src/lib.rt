//! Objects with finalizers. An object is registered with a queue. Where marking found it to be reached
//! from no root, it is chosen before what it refers to, as the documentation of PyPy's ordered finalizers
//! asks, and enters its queue. Which object of a cycle comes first is this project's own rule: the one
//! that was registered first.
#![tactic(auto)]

ghost use Rattle.std.specs.Prelude.{◌≡◌, ◌<◌, ◌≤◌, ◌++◌, [], IsFalse, IfOk, OnOk, OnErr, replicate, flat_map};
ghost use Rattle.heap_space.specs.Places.{word_at};
ghost use Rattle.finalizer_order.specs.Finalizers.{no_finalizers, is_listed, with_registered, places_of, placed, queued_entries};
ghost use Rattle.finalizer_order.specs.Queues.{next_place, take_next, queues_with};
ghost use Rattle.finalizer_order.specs.Listed.{BeginsWith};
ghost use Rattle.finalizer_order.specs.Moves.{Moves};
ghost use Rattle.finalizer_order.specs.Choosing.{CanChoose, Chooses, Keeps};

mod entry;
mod marking;
mod passes;
mod queue;

pub use crate::entry::Entry;
use crate::entry::append_places;
use crate::passes::Passes;
use crate::queue::{Queue, append_queued, empty_queues, queue_all};
use heap_space::Space;
use indexmap::IndexSet;
use nursery_gaps::Nursery;
use std::alloc::{AllocError, Global};
use std::marker::Model;
use std::mem;
use type_table::TypeTable;

/// How many objects a new list has room for.
const FIRST_ROOM: usize = 16;

/// The objects with finalizers: those that are registered, those that were chosen and wait for their
/// queues, and the queues. A contract sees these lists, where each object has its place, its birth and
/// its queue.
#[derive(Drop)]
pub struct Finals {
    registered: Vec<Entry>,
    chosen: Vec<Entry>,
    queues: Vec<Queue>,
    /// The births of all of them.
    births: IndexSet<u64>,
    /// Behind the registered object that moved last.
    after_moved: usize,
    passes: Passes,
}

impl Model for Finals {
    ghost use Rattle.std.specs.Prelude.{length, nat_eq};
    ghost use Rattle.indexmap.specs.IndexSet.{contains};
    ghost use Rattle.finalizer_order.specs.Finalizers.{Finalizers};
    ghost use Rattle.finalizer_order.specs.Queues.{tabled};
    ghost use Rattle.finalizer_order.specs.Listed.{AreListed};

    ghost Value = { Finalizers };

    ghost view = { λ f. record {
      queue_count = length f.queues.items;
      registered = f.registered.items;
      chosen = f.chosen.items;
      queues = tabled 0 f.queues.items;
    } };

    ghost invariant = { λ f. AreListed (contains nat_eq f.births) f.registered.items f.chosen.items f.queues.items };
}

impl Finals {
    /// Nothing is registered, and there are so many queues, with the numbers from 0 on.
    pub fn new(alloc: Global, queues: u64) -> Result<Finals, AllocError>
        requires { (1 ≤ queues) × (queues ≤ 256) }
        ensures { IfOk result (λ finals. finals ≡ no_finalizers queues) }
    {
        Ok(Finals {
            registered: Vec::with_capacity(alloc, FIRST_ROOM)?,
            chosen: Vec::new(alloc),
            queues: empty_queues(alloc, queues as usize)?,
            births: IndexSet::with_capacity(alloc, FIRST_ROOM)?,
            after_moved: 0,
            passes: Passes::new(alloc),
        })
    }

    /// Registers the object at the place `a`, which was born as `birth`, with a queue. So far it is
    /// neither registered nor chosen nor queued; once it left its queue it may be registered again.
    /// Without memory nothing changes.
    pub fn register(&mut self, a: u64, birth: u64, queue: u64) -> Result<(), AllocError>
        requires unlisted { IsFalse (is_listed self.old birth) }
        requires in_range { queue < self.old.queue_count }
        ensures ok { OnOk result (self.new ≡ with_registered self.old (record { place = a; birth = birth; queue = queue })) }
        ensures err { OnErr result (self.new ≡ self.old) }
    {
        self.registered.reserve(1)?;
        self.births.insert(birth)?;
        self.registered.push_reserved(Entry {
            place: a,
            birth,
            queue,
        });
        Ok(())
    }

    /// Whether the object that was born as `birth` is registered, chosen or queued.
    pub fn was_registered(&self, birth: u64) -> bool
        ensures { result ≡ is_listed self.now birth }
    {
        self.births.contains(&birth)
    }

    /// Notes that the registered object at the place `from` moved to `to`. Where none lies there
    /// nothing changes. It is found at once where objects are told in the order of their registration.
    pub fn moved(&mut self, from: u64, to: u64)
        ensures registered { Moves from to self.old.registered self.new.registered }
        ensures rest { self.new ≡ record self.old { registered = self.new.registered } }
    {
        if let Some(index) = entry::index_from(&self.registered, self.after_moved, from) {
            self.registered[index].place = to;
            self.after_moved = index + 1;
        }
    }

    /// Chooses among the dying objects, which are the registered ones outside the nursery without the
    /// flag Visited, once marking is over. A dying object is chosen where each other dying one that
    /// reaches it is reached by it and was not registered before it. All that dying objects reach is
    /// kept: it gets the flag Visited, and its births are appended, by rising birth. The flags Order1
    /// and Order2 are clear before and after.
    ///
    /// The error is want of memory alone. Nothing more is said of the finalizers and the space then, and
    /// `kept` is as it was.
    pub fn choose(
        &mut self,
        space: &mut Space,
        types: &TypeTable,
        nursery: &Nursery,
        kept: &mut Vec<u64>,
    ) -> Result<(), AllocError>
        requires { CanChoose space.old types.now nursery.now.words (places_of self.old.registered) }
        ensures chosen { OnOk result
            (Chooses types.now nursery.now.words (word_at space.old.blocks) self.old self.new) }
        ensures kept { OnOk result
            (Keeps types.now nursery.now.words (places_of self.old.registered) space.old space.new kept.old.items kept.new.items) }
        ensures err { OnErr result (kept.new.items ≡ kept.old.items) }
    {
        self.passes.run(space, types, nursery, &self.registered)?;
        self.passes.split(space, nursery, &self.registered)?;
        self.chosen.extend_from_slice(&self.passes.taken)?;
        mem::swap(&mut self.registered, &mut self.passes.stays);
        self.passes.settle(space, kept)
    }

    /// Lets each chosen object enter its queue, in order of registration, and appends their places with
    /// the numbers of their queues. After want of memory nothing more is said of the finalizers.
    pub fn flush(&mut self, queued: &mut Vec<(u64, u64)>) -> Result<(), AllocError>
        ensures flushed { OnOk result (self.new ≡ record self.old {
          chosen = [];
          queues = queues_with self.old.queues self.old.chosen;
        }) }
        ensures told { OnOk result (queued.new.items ≡ queued.old.items ++ placed self.old.chosen) }
        ensures err { OnErr result (BeginsWith queued.old.items queued.new.items) }
    {
        queue_all(&mut self.queues, &mut self.chosen, queued)
    }

    /// Takes the first object out of a queue, and tells its place. `None` exactly where the queue is
    /// empty, and then nothing changes.
    pub fn next(&mut self, queue: u64) -> Option<u64>
        ensures first { result ≡ next_place self.old.queues queue }
        ensures taken { self.new ≡ record self.old { queues = take_next self.old.queues queue } }
    {
        if queue >= self.queues.len() as u64 {
            return None;
        }
        let waiting = &mut self.queues[queue as usize];
        let entry = waiting.pop()?;
        self.births.swap_remove(&entry.birth);
        Some(entry.place)
    }

    /// Appends the places of the registered objects, in order of registration. Without memory nothing
    /// is appended.
    pub fn registered_places(&self, places: &mut Vec<u64>) -> Result<(), AllocError>
        ensures ok { OnOk result (places.new.items ≡ places.old.items ++ places_of self.now.registered) }
        ensures err { OnErr result (places.new.items ≡ places.old.items) }
    {
        places.reserve(self.registered.len())?;
        append_places(&self.registered, places);
        Ok(())
    }

    /// Appends the places of the queued objects, by rising queue and in their order, and then those of
    /// the chosen ones, in order of registration. After want of memory some may have been appended.
    pub fn waiting_places(&self, places: &mut Vec<u64>) -> Result<(), AllocError>
        ensures ok { OnOk result (places.new.items
            ≡ places.old.items ++ (places_of (queued_entries self.now.queues) ++ places_of self.now.chosen)) }
        ensures err { OnErr result (BeginsWith places.old.items places.new.items) }
    {
        append_queued(&self.queues, places)?;
        places.reserve(self.chosen.len())?;
        append_places(&self.chosen, places);
        Ok(())
    }
}
