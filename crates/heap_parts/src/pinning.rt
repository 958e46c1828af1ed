//! Objects of the nursery that may not move.
ghost use Rattle.std.specs.Prelude.{◌≡◌, ◌<◌, ◌≤◌, IsTrue};
ghost use Rattle.heap_space.specs.Places.{has};
ghost use Rattle.store_model.specs.Identity.{pin_count as count_in, has_pin_room as has_room_in};
ghost use Rattle.parts_model.specs.Pins.{with_pin, without_pin};

use crate::parts::Parts;
use object_header::{Flag, clear, set};

impl Parts {
    /// Whether one pin more of the object at a place may be counted: an object has at most 65,535, and as many objects as
    /// the setting `pins` says are pinned at once.
    pub fn has_pin_room(&self, place: u64) -> bool
        ensures { result ≡ has_room_in self.now.setup.settings.pins self.now.pins (count_in self.now.pins place) }
    {
        let n = self.pins.count(place);
        if n == 0 {
            return (self.pins.len() as u64) < self.settings.pins;
        }
        n < 65_535
    }

    /// Pins the object at a place once more, of which one pin more may be counted. It does not allocate.
    pub fn pin(&mut self, place: u64)
        requires there { IsTrue (has self.old.memory.blocks place) }
        requires few { self.old.setup.settings.pins ≤ 1024 }
        requires room { IsTrue (has_room_in self.old.setup.settings.pins self.old.pins (count_in self.old.pins place)) }
        ensures { self.new ≡ with_pin self.old place }
    {
        self.pins.add(place);
        let word = self.space.read(place);
        self.space.write(place, set(word, Flag::Pinned));
    }

    /// Takes one pin off the pinned object at a place. Its flag is cleared where no pin is left.
    pub fn unpin(&mut self, place: u64)
        requires there { IsTrue (has self.old.memory.blocks place) }
        requires pinned { 0 < count_in self.old.pins place }
        ensures { self.new ≡ without_pin self.old place }
    {
        let left = self.pins.take(place);
        let word = self.space.read(place);
        let kept = if left > 0 {
            word
        } else {
            clear(word, Flag::Pinned)
        };
        self.space.write(place, kept);
    }
}
