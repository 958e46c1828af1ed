//! What the parts tell of objects in slots, of structures and of words.
ghost use Rattle.std.specs.Prelude.{◌≡◌, ◌≢◌, ◌+◌, ◌<◌, ◌^◌};
ghost use Rattle.type_table.specs.Table.{value_at};
ghost use Rattle.object_header.specs.Words.{has_flag};
ghost use Rattle.object_header.specs.declared.flags.Flag.TheVariants.{Pinned};
ghost use Rattle.object_view.specs.Views.{HasObject};
ghost use Rattle.object_model.specs.Setup.{young_words};
ghost use Rattle.store_model.specs.Store.{husk_words as husk_words_of};
ghost use Rattle.store_model.specs.Structs.{state_of};
ghost use Rattle.parts_model.specs.Parts.{word_in, place_in};
ghost use Rattle.parts_model.specs.Registers.{is_final};
ghost use Rattle.parts_model.specs.Told.{if_there, has_p_link_at};

use crate::parts::Parts;
use object_header::{Flag, is_set};
use object_model::StructState;
use object_view::view;
use std::collections::BTreeMap;

impl Parts {
    /// Whether a slot holds a pinned object.
    pub fn is_pinned(&self, root: u32) -> bool
        requires { place_in self.now root ≢ 0 → HasObject self.now.memory self.now.setup.types (place_in self.now root) }
        ensures { result ≡ if_there (place_in self.now root) (has_flag (word_in self.now (place_in self.now root)) Pinned) }
    {
        let place = self.place(root);
        if place == 0 {
            return false;
        }
        let _whole = view(&self.space, &self.types, place);
        is_set(self.space.read(place), Flag::Pinned)
    }

    /// Whether a slot holds an object that is registered, chosen or queued.
    pub fn was_registered(&self, root: u32) -> bool
        requires { place_in self.now root ≢ 0 → HasObject self.now.memory self.now.setup.types (place_in self.now root) }
        ensures { result ≡ if_there (place_in self.now root) (is_final self.now (place_in self.now root)) }
    {
        let Some(birth) = self.birth_of(self.place(root)) else {
            return false;
        };
        self.finals.was_registered(birth)
    }

    /// Whether a slot holds an object with a P link.
    pub fn has_p_link(&self, root: u32) -> bool
        ensures { result ≡ if_there (place_in self.now root) (has_p_link_at self.now (place_in self.now root)) }
    {
        let place = self.place(root);
        if place == 0 {
            return false;
        }
        self.links.from_obj(place).is_some()
    }

    /// The state of the structure of a number.
    pub fn struct_state(&self, number: u32) -> StructState
        ensures { result ≡ state_of (value_at self.now.links.structs number) }
    {
        self.links.state(number)
    }

    /// The words of the objects in the nursery.
    pub fn unsettled_words(&self) -> u64
        ensures { result ≡ self.now.unsettled }
    {
        self.unsettled
    }

    /// The words that were born outside the nursery since the last minor collection.
    pub fn fresh_words(&self) -> u64
        ensures { result ≡ self.now.fresh }
    {
        self.fresh
    }

    /// The words of all objects and husks.
    pub fn counted_words(&self) -> u64
        requires { self.now.unsettled + self.now.old_words < 2 ^ 64 }
        ensures { result ≡ self.now.unsettled + self.now.old_words }
    {
        self.unsettled + self.old_words
    }

    /// The next birth.
    pub fn next_birth(&self) -> u64
        ensures { result ≡ self.now.next }
    {
        self.next
    }

    /// The greatest words of an object of the nursery.
    pub fn young_words(&self) -> u64
        ensures { result ≡ young_words self.now.setup.settings }
    {
        self.settings.young_words()
    }

    /// The words of all husks: what was condemned and is not freed yet.
    pub fn husk_words(&self) -> u64
        requires { husk_words_of self.now.husk_list < 2 ^ 64 }
        ensures { result ≡ husk_words_of self.now.husk_list }
    {
        words_of(&self.husks)
    }
}

/// The words of these husks.
fn words_of(husks: &BTreeMap<u64, u64>) -> u64
    requires { husk_words_of husks.now.entries < 2 ^ 64 }
    ensures { result ≡ husk_words_of husks.now.entries }
{
    husks.values().copied().sum()
}
