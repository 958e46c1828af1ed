//! Objects with finalizers, and their queues.
ghost use Rattle.std.specs.Prelude.{◌≡◌, ◌<◌, IsFalse, OnOk, OnErr};
ghost use Rattle.object_view.specs.Views.{HasObject};
ghost use Rattle.parts_model.specs.Registers.{is_final, with_registered, next_place, without_next};

use crate::parts::Parts;
use std::alloc::AllocError;

impl Parts {
    /// Registers the object at a place with a queue. So far it is neither registered nor chosen nor queued. The error is out
    /// of memory, and nothing changes then.
    pub fn register(&mut self, place: u64, queue: u64) -> Result<(), AllocError>
        requires object { HasObject self.old.memory self.old.setup.types place }
        requires unlisted { IsFalse (is_final self.old place) }
        requires in_range { queue < self.old.finals.queue_count }
        ensures ok { OnOk result (self.new ≡ with_registered self.old place queue) }
        ensures err { OnErr result (self.new ≡ self.old) }
    {
        let birth = self.birth_at(place);
        self.finals.register(place, birth, queue)
    }

    /// Takes the first object out of a queue, and tells its place, None exactly where the queue is empty: nothing changes then.
    pub fn next_final(&mut self, queue: u64) -> Option<u64>
        ensures first { result ≡ next_place self.old queue }
        ensures taken { self.new ≡ without_next self.old queue }
    {
        self.finals.next(queue)
    }
}
