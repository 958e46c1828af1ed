//! Objects with finalizers, and lists of them.

ghost use Rattle.std.specs.Prelude.{◌≡◌, ◌==◌, ◌+◌, position, ◌≤◌, ◌++◌, IsFalse, IfSome, IfNone, length, slice_get, option_map, Some, vec_len, vec_capacity};
ghost use Rattle.object_model.specs.Sets.{is_in};
ghost use Rattle.finalizer_order.specs.Finalizers.{places_of};

/// An object with a finalizer, from its registration until it leaves its queue.
#[derive(Clone, Copy, PartialEq, Eq, Debug)]
pub struct Entry {
    /// The place of the object.
    pub place: u64,
    /// The number of its birth, which names the object for good.
    pub birth: u64,
    /// The number of the queue that it enters.
    pub queue: u64,
}

/// The index of an entry with the place. It is looked for from the index `from` on, and then from the
/// front. `None` exactly where no entry has the place.
pub(crate) fn index_from(entries: &[Entry], from: usize, place: u64) -> Option<usize>
    ensures found { IfSome result (λ k. option_map (λ entry. entry.place) (slice_get entries.now k) ≡ Some place) }
    ensures none { IfNone result (IsFalse (is_in place (places_of entries.now))) }
{
    let middle = from.min(entries.len());
    let (before, behind) = entries.split_at(middle);
    match index_of(behind, place) {
        Some(index) => Some(middle + index),
        None => index_of(before, place),
    }
}

// The index of the first entry with the place.
fn index_of(entries: &[Entry], place: u64) -> Option<usize>
    ensures { result ≡ position (λ entry. entry.place == place) entries.now }
{
    entries.iter().position(|entry| entry.place == place)
}

/// Appends the places of entries to a list that has room for them.
pub(crate) fn append_places(entries: &[Entry], places: &mut Vec<u64>)
    requires { vec_len places.old + length entries.now ≤ vec_capacity places.old }
    ensures items { places.new.items ≡ places.old.items ++ places_of entries.now }
    ensures used { vec_len places.new ≤ vec_len places.old + length entries.now }
    ensures room { vec_capacity places.new ≡ vec_capacity places.old }
{
    for entry in entries {
        places.push_reserved(entry.place);
    }
}
