//! The pages in use, gathered from the lists of all classes.

ghost use Rattle.std.specs.Prelude.{◌≡◌, ℕ, ◌++◌, List, vec_len, vec_capacity};
ghost use Rattle.size_pages.specs.Growth.{IsOnlyOrder};
ghost use Rattle.size_pages.specs.Calls.{NoneWaits};
ghost use Rattle.size_pages.specs.Gathering.{IsListFrom, CanGather, IsOrder};

use crate::kinds::CLASS_LISTS;
use crate::{Pages, header};
use heap_space::Space;

/// Appends the pages of the list that begins at `first`. There is room for them.
fn gather_list(order: &mut Vec<u64>, space: &Space, first: u64)
    requires { CanGather space.now first (vec_len order.old) (vec_capacity order.old) }
    ensures gathered { (list : List ℕ) → IsListFrom space.now first list
        → order.new.items ≡ order.old.items ++ list }
    ensures room { vec_capacity order.new ≡ vec_capacity order.old }
{
    let mut page = first;
    while page != 0 {
        order.push_reserved(page);
        page = header::next(space, page);
    }
}

impl Pages {
    /// Gathers the pages in use, in `order`, by rising place.
    pub(crate) fn order_pages(&mut self, space: &Space)
        requires { NoneWaits self.old space.now }
        ensures ordered { IsOrder self.old space.now self.new.order.items }
        ensures order { IsOnlyOrder self.old self.new }
    {
        self.order.clear();
        for list in CLASS_LISTS..self.heads.len() {
            gather_list(&mut self.order, space, self.heads[list]);
        }
        self.order.sort_unstable();
    }
}
