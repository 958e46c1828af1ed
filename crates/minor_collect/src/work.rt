//! What a minor collection works with besides the parts of the heap.

ghost use Rattle.std.specs.Prelude.{◌≡◌, ◌+◌, ◌<◌, ◌^◌, ◌++◌, [], ◌∷◌, OnOk};

use remember_cards::Span;
use std::alloc::{AllocError, Global};
use std::collections::VecDeque;
use text_model::LinkEnd;

/// What moved so far.
#[derive(Drop)]
pub(crate) struct Moving {
    /// The places of the objects that moved and whose references were not followed yet, the oldest first.
    pub(crate) todo: VecDeque<u64>,
    /// How many objects moved, and how many words they have.
    pub(crate) objects: u64,
    pub(crate) words: u64,
}

impl Moving {
    /// Nothing moved.
    pub(crate) fn new(alloc: Global) -> Self {
        Moving {
            todo: VecDeque::new(alloc),
            objects: 0,
            words: 0,
        }
    }

    /// Nothing moved yet in this collection. The room of the list stays.
    pub(crate) fn clear(&mut self)
        ensures todo { self.new.todo.items ≡ [] }
        ensures objects { self.new.objects ≡ 0 }
        ensures words { self.new.words ≡ 0 }
    {
        self.todo.clear();
        self.objects = 0;
        self.words = 0;
    }

    /// One object more, of n words, moved to a place. The error is out of memory.
    pub(crate) fn note(&mut self, a: u64, n: u64) -> Result<(), AllocError>
        requires objects { self.old.objects + 1 < 2 ^ 64 }
        requires words { self.old.words + n < 2 ^ 64 }
        ensures todo { OnOk result (self.new.todo.items ≡ self.old.todo.items ++ a ∷ []) }
        ensures objects { OnOk result (self.new.objects ≡ self.old.objects + 1) }
        ensures words { OnOk result (self.new.words ≡ self.old.words + n) }
    {
        self.todo.push_back(a)?;
        self.objects += 1;
        self.words += n;
        Ok(())
    }
}

/// The lists of a minor collection. They are scratch: what they hold between two collections means nothing, and only their room
/// is kept, so that a later collection allocates less.
#[derive(Drop)]
pub struct Lists {
    pub(crate) moving: Moving,
    /// The remembered items, what was kept for pinned objects first, else in the order of the first remembering. The spans of an
    /// object stand together.
    pub(crate) spans: Vec<Span>,
    /// The places of the registered objects.
    pub(crate) registered: Vec<u64>,
    /// The places of objects that P links keep.
    pub(crate) forced: Vec<u64>,
    /// The places of what is gone.
    pub(crate) dead: Vec<u64>,
    /// The births of weak objects whose targets are gone.
    pub(crate) cleared: Vec<u64>,
    /// The births of what is gone and has a destructor.
    pub(crate) destroyed: Vec<u64>,
    /// The ends of links.
    pub(crate) ends: Vec<LinkEnd>,
    /// The places of the pinned objects, and the same with their words.
    pub(crate) places: Vec<u64>,
    pub(crate) pinned: Vec<(u64, u64)>,
}

impl Lists {
    /// Empty lists. It does not allocate.
    pub fn new(alloc: Global) -> Self {
        Lists {
            moving: Moving::new(alloc),
            spans: Vec::new(alloc),
            registered: Vec::new(alloc),
            forced: Vec::new(alloc),
            dead: Vec::new(alloc),
            cleared: Vec::new(alloc),
            destroyed: Vec::new(alloc),
            ends: Vec::new(alloc),
            places: Vec::new(alloc),
            pinned: Vec::new(alloc),
        }
    }

    /// Empties the lists. Their room stays.
    pub(crate) fn clear(&mut self)
        ensures todo { self.new.moving.todo.items ≡ [] }
        ensures objects { self.new.moving.objects ≡ 0 }
        ensures words { self.new.moving.words ≡ 0 }
        ensures spans { self.new.spans.items ≡ [] }
        ensures registered { self.new.registered.items ≡ [] }
        ensures forced { self.new.forced.items ≡ [] }
        ensures dead { self.new.dead.items ≡ [] }
        ensures cleared { self.new.cleared.items ≡ [] }
        ensures destroyed { self.new.destroyed.items ≡ [] }
        ensures ends { self.new.ends.items ≡ [] }
        ensures places { self.new.places.items ≡ [] }
        ensures pinned { self.new.pinned.items ≡ [] }
    {
        self.moving.clear();
        self.spans.clear();
        self.registered.clear();
        self.forced.clear();
        self.dead.clear();
        self.cleared.clear();
        self.destroyed.clear();
        self.ends.clear();
        self.places.clear();
        self.pinned.clear();
    }
}
