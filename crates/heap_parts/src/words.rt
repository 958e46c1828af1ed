//! Words of the objects in slots, and the slots.
ghost use Rattle.std.specs.Prelude.{◌≡◌, ◌≢◌, ◌+◌, ◌<◌, length};
ghost use Rattle.object_view.specs.Views.{HasObject};
ghost use Rattle.object_model.specs.ObjectWords.{type_id_at};
ghost use Rattle.parts_model.specs.Parts.{word_in, place_in};
ghost use Rattle.parts_model.specs.Told.{kind_at};
ghost use Rattle.parts_model.specs.Effects.{birth_read, HasObjectIn, with_slot};

use crate::parts::Parts;
use object_model::Kind;
use object_view::view;

impl Parts {
    /// The place of the object in a slot, 0 where it is empty or not there.
    pub fn place(&self, root: u32) -> u64
        ensures { result ≡ place_in self.now root }
    {
        match self.slots.get(root as usize) {
            None => 0,
            Some(place) => *place,
        }
    }

    /// The shape of the object in a slot with its numbers of items, if there is one.
    pub fn kind(&self, root: u32) -> Option<Kind>
        requires { place_in self.now root ≢ 0 → HasObject self.now.memory self.now.setup.types (place_in self.now root) }
        ensures { result ≡ kind_at self.now.setup.types (word_in self.now) (place_in self.now root) }
    {
        let place = self.place(root);
        if place == 0 {
            return None;
        }
        let v = view(&self.space, &self.types, place);
        let shape = self.types.get(v.type_id).unwrap().shape;
        Some(Kind {
            shape,
            ints: v.int_count,
            refs: v.ref_count,
        })
    }

    /// The type id of the object in a slot.
    pub fn type_of(&self, root: u32) -> u16
        requires { HasObjectIn self.now root }
        ensures { result ≡ type_id_at (word_in self.now) (place_in self.now root) }
    {
        view(&self.space, &self.types, self.place(root)).type_id
    }

    /// Puts a place into a slot, or 0.
    pub fn set_slot(&mut self, root: u32, place: u64)
        requires { root < length self.old.slots }
        ensures { self.new ≡ with_slot self.old root place }
    {
        self.slots[root as usize] = place;
    }

    /// The birth of the object at a place, None where it is 0.
    pub fn birth_of(&self, place: u64) -> Option<u64>
        requires { place ≢ 0 → HasObject self.now.memory self.now.setup.types place }
        ensures { result ≡ birth_read (word_in self.now) place }
    {
        if place == 0 {
            return None;
        }
        Some(self.birth_at(place))
    }

    /// The birth of the object at a place: its word 1.
    pub(crate) fn birth_at(&self, place: u64) -> u64
        requires { HasObject self.now.memory self.now.setup.types place }
        ensures { result ≡ word_in self.now (place + 1) }
    {
        // The places of a space are below 2^63.
        let _ordered = self.space.arena_words();
        self.space.read(place + 1)
    }
}
