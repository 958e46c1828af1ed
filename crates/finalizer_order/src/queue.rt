//! Finalizer queues.

ghost use Rattle.std.specs.Prelude.{◌≡◌, ℕ, ◌+◌, length, [], ◌∷◌, ◌++◌, IfOk, OnOk, OnErr, drop, slice_get, replicate};
ghost use Rattle.finalizer_order.specs.Finalizers.{places_of, placed};
ghost use Rattle.finalizer_order.specs.Queues.{AreInRange, push_all, joined};
ghost use Rattle.finalizer_order.specs.Listed.{BeginsWith, times_of};

use crate::entry::{Entry, append_places};
use std::alloc::{AllocError, Global};
use std::collections::VecDeque;
use std::marker::Model;

/// Objects that wait, first in, first out. A contract sees the list from the first on.
#[derive(Drop)]
pub(crate) struct Queue {
    entries: VecDeque<Entry>,
}

impl Model for Queue {
    ghost use Rattle.std.specs.Prelude.{List};
    ghost use Rattle.finalizer_order.specs.declared.entry.Entry.{Entry};

    ghost Value = { List Entry };

    ghost view = { λ queue. queue.entries.items };
}

impl Queue {
    /// An empty queue.
    fn new(alloc: Global) -> Queue
        ensures { result ≡ [] }
    {
        Queue {
            entries: VecDeque::new(alloc),
        }
    }

    /// Lets an object wait behind all others. Without memory nothing changes.
    fn push(&mut self, entry: Entry) -> Result<(), AllocError>
        ensures ok { OnOk result (self.new ≡ self.old ++ entry ∷ []) }
        ensures err { OnErr result (self.new ≡ self.old) }
    {
        self.entries.push_back(entry)?;
        Ok(())
    }

    /// Takes the first. `None` exactly where none waits.
    pub(crate) fn pop(&mut self) -> Option<Entry>
        ensures first { result ≡ slice_get self.old 0 }
        ensures rest { self.new ≡ drop 1 self.old }
    {
        self.entries.pop_front()
    }

    /// Appends the places of the objects that wait. Without memory nothing is appended.
    fn append(&self, places: &mut Vec<u64>) -> Result<(), AllocError>
        ensures ok { OnOk result (places.new.items ≡ places.old.items ++ places_of self.now) }
        ensures err { OnErr result (places.new.items ≡ places.old.items) }
    {
        let (front, back) = self.entries.as_slices();
        places.reserve(front.len() + back.len())?;
        append_places(front, places);
        append_places(back, places);
        Ok(())
    }
}

/// So many empty queues.
pub(crate) fn empty_queues(alloc: Global, count: usize) -> Result<Vec<Queue>, AllocError>
    ensures { IfOk result (λ queues. queues.items ≡ replicate count []) }
{
    let mut queues = Vec::with_capacity(alloc, count)?;
    for _made in 0..count {
        queues.push(Queue::new(alloc))?;
    }
    Ok(queues)
}

/// Lets all chosen objects enter their queues, from the first on, and appends their places with the
/// numbers of the queues. After want of memory each object is still chosen or in its queue.
pub(crate) fn queue_all(
    queues: &mut Vec<Queue>,
    chosen: &mut Vec<Entry>,
    queued: &mut Vec<(u64, u64)>,
) -> Result<(), AllocError>
    requires { AreInRange (length queues.old.items) chosen.old.items }
    ensures queues { OnOk result (queues.new.items ≡ push_all queues.old.items chosen.old.items) }
    ensures chosen { OnOk result (chosen.new.items ≡ []) }
    ensures told { OnOk result (queued.new.items ≡ queued.old.items ++ placed chosen.old.items) }
    ensures err { OnErr result (BeginsWith queued.old.items queued.new.items) }
    ensures many { length queues.new.items ≡ length queues.old.items }
    ensures in_range { AreInRange (length queues.old.items) chosen.new.items }
    ensures listed { (birth : ℕ) → times_of birth chosen.new.items + times_of birth (joined queues.new.items)
        ≡ times_of birth chosen.old.items + times_of birth (joined queues.old.items) }
{
    chosen.reverse();
    while let Some(entry) = chosen.pop() {
        let queue = &mut queues[entry.queue as usize];
        if let Err(error) = queue.push(entry) {
            chosen.push_reserved(entry);
            return Err(error);
        }
        queued.push((entry.place, entry.queue))?;
    }
    Ok(())
}

/// Appends the places of the objects in all queues, by rising number.
pub(crate) fn append_queued(queues: &[Queue], places: &mut Vec<u64>) -> Result<(), AllocError>
    ensures ok { OnOk result (places.new.items ≡ places.old.items ++ places_of (joined queues.now)) }
    ensures err { OnErr result (BeginsWith places.old.items places.new.items) }
{
    for queue in queues {
        queue.append(places)?;
    }
    Ok(())
}
