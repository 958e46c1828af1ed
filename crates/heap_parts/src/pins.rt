//! The pinned objects, by their places, each with how many times it is pinned.
ghost use Rattle.std.specs.Prelude.{◌≡◌, ◌==◌, ℕ, ◌-◌, ◌<◌, [], length, IfOk, position, vec_len, vec_capacity};
ghost use Rattle.std.specs.Iterator.Adapters.{IterYieldsInOrder};
ghost use Rattle.std.specs.Slice.Iter.{iter_rest};
ghost use Rattle.store_model.specs.Identity.{pin_count, pinned_more, pinned_less};

use std::alloc::{AllocError, Global};
use std::marker::Model;
use std::slice::Iter;

// The greatest value of the setting `pins`.
const MOST_PINNED: usize = 1024;

/// The places of the pinned objects with their counts, in the order in which they were pinned. A contract sees the list.
/// There is room for 1,024 objects from the start, as many as the setting `pins` can allow, so that no pin allocates.
#[derive(Drop)]
pub struct Pins {
    entries: Vec<(u64, u64)>,
}

impl Model for Pins {
    ghost use Rattle.std.specs.Prelude.{ℕ, ◌≤◌, ◌*◌, List, vec_capacity};

    ghost Value = { List (ℕ × ℕ) };

    ghost view = { λ p. p.entries.items };

    ghost invariant = { λ p. 1024 ≤ vec_capacity p.entries };
}

impl Pins {
    /// No object is pinned. The error is out of memory.
    pub fn new(alloc: Global) -> Result<Self, AllocError>
        ensures { IfOk result (λ pins. pins ≡ []) }
    {
        let entries = Vec::with_capacity(alloc, MOST_PINNED)?;
        Ok(Pins { entries })
    }

    /// How many objects are pinned.
    pub fn len(&self) -> usize
        ensures { result ≡ length self.now }
    {
        self.entries.len()
    }

    /// Whether no object is pinned.
    pub fn is_empty(&self) -> bool
        ensures { result ≡ (length self.now == 0) }
    {
        self.entries.is_empty()
    }

    /// The pinned objects.
    pub fn as_slice(&self) -> &[(u64, u64)]
        ensures { result.now ≡ self.now }
    {
        self.entries.as_slice()
    }

    /// Goes over the pinned objects.
    pub fn iter(&self) -> Iter<'_, (u64, u64)>
        ensures rest { iter_rest result ≡ self.now }
        ensures runs { IterYieldsInOrder (ℕ × ℕ) }
    {
        self.entries.as_slice().iter()
    }

    /// How many times the object at a place is pinned.
    pub fn count(&self, place: u64) -> u64
        ensures { result ≡ pin_count self.now place }
    {
        count_of(&self.entries, place)
    }

    /// Counts one pin more of the object at a place. It does not allocate.
    pub fn add(&mut self, place: u64)
        requires fits { pin_count self.old place < 65535 }
        requires room { pin_count self.old place ≡ 0 → length self.old < 1024 }
        ensures { self.new ≡ pinned_more self.old place }
    {
        add_pin(&mut self.entries, place);
    }

    /// Counts one pin less of the pinned object at a place, and answers how many are left.
    pub fn take(&mut self, place: u64) -> u64
        requires { 0 < pin_count self.old place }
        ensures left { result ≡ pin_count self.old place - 1 }
        ensures pins { self.new ≡ pinned_less self.old place }
    {
        take_pin(&mut self.entries, place)
    }
}

/// Which of the pinned objects stands at a place, if one does.
fn pin_index(pins: &[(u64, u64)], place: u64) -> Option<usize>
    ensures { result ≡ position (λ pin. pin.0 == place) pins.now }
{
    pins.iter().position(|pin| pin.0 == place)
}

/// How many times the object at a place is pinned.
fn count_of(pins: &[(u64, u64)], place: u64) -> u64
    ensures { result ≡ pin_count pins.now place }
{
    match pin_index(pins, place) {
        None => 0,
        Some(i) => pins[i].1,
    }
}

/// One pin more of the object at a place. There is room for one object more where it has no pin yet.
fn add_pin(pins: &mut Vec<(u64, u64)>, place: u64)
    requires fits { pin_count pins.old.items place < 65535 }
    requires room { pin_count pins.old.items place ≡ 0 → vec_len pins.old < vec_capacity pins.old }
    ensures pins { pins.new.items ≡ pinned_more pins.old.items place }
    ensures capacity { vec_capacity pins.new ≡ vec_capacity pins.old }
{
    let Some(i) = pin_index(pins, place) else {
        pins.push_reserved((place, 1));
        return;
    };
    pins[i].1 += 1;
}

/// One pin less of the pinned object at a place, and how many are left.
fn take_pin(pins: &mut Vec<(u64, u64)>, place: u64) -> u64
    requires { 0 < pin_count pins.old.items place }
    ensures left { result ≡ pin_count pins.old.items place - 1 }
    ensures pins { pins.new.items ≡ pinned_less pins.old.items place }
    ensures capacity { vec_capacity pins.new ≡ vec_capacity pins.old }
{
    let Some(i) = pin_index(pins, place) else {
        return 0;
    };
    let left = pins[i].1 - 1;
    if left == 0 {
        pins.remove(i);
    } else {
        pins[i].1 = left;
    }
    left
}
