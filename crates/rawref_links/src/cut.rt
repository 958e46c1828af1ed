//! What becomes of the structures whose objects are gone or moved, over numbers of structures.

ghost use Rattle.std.specs.Prelude.{◌≡◌, ◌+◌, ◌≤◌, ◌++◌, ℕ, IsSome, Some, length, vec_len, vec_capacity, option_to_list};
ghost use Rattle.std.specs.VecDeque.{deque_len, deque_capacity};
ghost use Rattle.std.specs.List.Sorted.{IsStrictlyIncreasing};
ghost use Rattle.type_table.specs.Table.{KeysRise, value_at};
ghost use Rattle.object_model.specs.Sets.{is_in};
ghost use Rattle.store_model.specs.Structs.{with_struct};
ghost use Rattle.store_model.specs.Links.{newly_dead};
ghost use Rattle.rawref_links.specs.Cuts.{end_of, left_of, ends_of, CutsAt, MovesAt, with_moved, AreListed};

use crate::structures::Structures;
use std::collections::VecDeque;
use store_model::{Fate, LinkEnd};

/// Puts numbers into rising order, each once.
pub(crate) fn put_in_order(numbers: &mut Vec<u32>)
    ensures rising { IsStrictlyIncreasing numbers.new.items }
    ensures same { (number : ℕ) → is_in number numbers.new.items ≡ is_in number numbers.old.items }
{
    numbers.sort_unstable();
    numbers.dedup();
}

/// Ends the links of structures whose objects are gone, tells how by rising number, and lets those wait that are pending
/// from then on. There is room for all of them.
pub(crate) fn cut_all(
    structures: &mut Structures,
    numbers: &[u32],
    dead: &mut VecDeque<u32>,
    ends: &mut Vec<LinkEnd>,
)
    requires listed { AreListed structures.old numbers.now }
    requires dead_room { deque_len dead.old + length numbers.now ≤ deque_capacity dead.old }
    requires ends_room { vec_len ends.old + length numbers.now ≤ vec_capacity ends.old }
    ensures structures { CutsAt structures.old structures.new numbers.now }
    ensures ends { ends.new.items ≡ ends.old.items ++ ends_of structures.old numbers.now }
    ensures dead { dead.new.items ≡ dead.old.items ++ newly_dead (ends_of structures.old numbers.now) }
{
    for number in numbers {
        cut_one(structures, *number, dead, ends);
    }
}

// Ends the link of one structure.
fn cut_one(
    structures: &mut Structures,
    number: u32,
    dead: &mut VecDeque<u32>,
    ends: &mut Vec<LinkEnd>,
)
    requires there { IsSome (value_at structures.old number) }
    requires dead_room { deque_len dead.old + 1 ≤ deque_capacity dead.old }
    requires ends_room { vec_len ends.old + 1 ≤ vec_capacity ends.old }
    ensures structures { structures.new
        ≡ with_struct structures.old number (left_of (value_at structures.old number)) }
    ensures ends { ends.new.items
        ≡ ends.old.items ++ option_to_list (end_of number (value_at structures.old number)) }
    ensures dead { dead.new.items
        ≡ dead.old.items ++ newly_dead (option_to_list (end_of number (value_at structures.old number))) }
    ensures dead_used { deque_len dead.new ≤ deque_len dead.old + 1 }
    ensures dead_capacity { deque_capacity dead.new ≡ deque_capacity dead.old }
    ensures ends_used { vec_len ends.new ≤ vec_len ends.old + 1 }
    ensures ends_capacity { vec_capacity ends.new ≡ vec_capacity ends.old }
{
    let structure = structures.get(number).unwrap();
    match structure.cut() {
        Some(left) => structures.set(number, left),
        None => structures.remove(number),
    }
    if let Some(end) = structure.end(number) {
        if end.fate == Fate::Pending {
            dead.push_back_reserved(number);
        }
        ends.push_reserved(end);
    }
}

/// Lets structures be linked with the object at the place `to`.
pub(crate) fn move_all(structures: &mut Structures, numbers: &[u32], to: u64)
    requires { KeysRise structures.old }
    ensures { MovesAt structures.old structures.new numbers.now to }
{
    for number in numbers {
        move_one(structures, *number, to);
    }
}

// Lets one structure, if it is there, be linked with the object at the place `to`.
fn move_one(structures: &mut Structures, number: u32, to: u64)
    ensures { structures.new ≡ with_moved structures.old number to (value_at structures.old number) }
{
    if let Some(structure) = structures.get(number) {
        structures.set(number, structure.moved(to));
    }
}
