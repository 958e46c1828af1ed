//! References copied from one object to another, or within one.

ghost use Rattle.std.specs.Prelude.{◌≡◌, ◌+◌, ◌≤◌};
ghost use Rattle.heap_space.specs.Places.{run_at, with_run};
ghost use Rattle.object_view.specs.Views.{HasView};

use crate::fields::ObjView;
use heap_space::Space;

/// Copies `n` references of the object at the place `b`, whose view is `from`, from item `j` on, to those of the object at
/// the place `a`, whose view is `to`, from item `i` on. All are read as they were before, also where both are items of one
/// object and overlap. Every other word stays. It does not allocate.
pub fn move_refs(
    space: &mut Space,
    to: ObjView,
    a: u64,
    i: u64,
    from: ObjView,
    b: u64,
    j: u64,
    n: u64,
)
    requires target { HasView space.old to a }
    requires source { HasView space.old from b }
    requires target_items { i + n ≤ to.ref_count }
    requires source_items { j + n ≤ from.ref_count }
    ensures { space.new ≡ record space.old { blocks = with_run space.old.blocks (to.ref_start + i) (run_at space.old.blocks (from.ref_start + j) n) } }
{
    space.copy_words(from.ref_start + j, to.ref_start + i, n);
}
