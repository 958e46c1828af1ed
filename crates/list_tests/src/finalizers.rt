//! A chain that leads into a cycle.

ghost use Rattle.std.specs.Prelude.{◌≡◌, ℕ, ◌+◌, ◌≤◌, [], ◌∷◌, IsTrue, IfOk};
ghost use Rattle.heap_space.specs.Places.{with_word, lies_in_one};
ghost use Rattle.finalizer_order.specs.Choosing.{CanChoose};

use finalizer_order::Finals;
use heap_space::Space;
use nursery_gaps::Nursery;
use std::alloc::{AllocError, Global};
use std::test::Fail;
use type_table::{Shape, TypeFault, TypeInfo, TypeTable};

// Objects of one reference.
const LINK: TypeInfo = TypeInfo {
    shape: Shape::Fixed { ints: 0, refs: 1 },
    destructor: false,
};

// A table in which type 7 has one reference.
fn links(alloc: Global) -> Result<TypeTable, TypeFault>
    ensures { IfOk result (λ types. types ≡ (7, LINK) ∷ []) }
{
    let mut types = TypeTable::new(alloc).map_err(|_| TypeFault::OutOfMemory)?;
    types.add(7, LINK)?;
    Ok(types)
}

// Writes an object of type 7.
fn write_link(space: &mut Space, a: u64, birth: u64, to: u64)
    requires room { IsTrue (lies_in_one space.old.blocks a 3) }
    requires small { a ≤ 4294967312 }
    ensures { space.new ≡ record space.old {
      blocks = with_word (with_word (with_word space.old.blocks a 7) (a + 1) birth) (a + 2) to;
    } }
{
    space.write(a, 7);
    space.write(a + 1, birth);
    space.write(a + 2, to);
}

// The first object refers to the second, and the second and the third to each other.
fn chain(alloc: Global) -> Result<Space, AllocError>
    ensures { IfOk result (λ space.
        CanChoose space ((7, LINK) ∷ []) 16 (4294967296 ∷ 4294967304 ∷ 4294967312 ∷ [])) }
{
    let mut space = Space::new(alloc, 16, 64)?;
    space.add_arena()?;
    write_link(&mut space, 4294967296, 11, 4294967304);
    write_link(&mut space, 4294967304, 12, 4294967312);
    write_link(&mut space, 4294967312, 13, 4294967304);
    Ok(space)
}

#[test]
fn a_chain_is_chosen_before_the_cycle_that_it_leads_to(rt: HostRuntime) -> Result<(), Fail> {
    let types = links(rt.alloc())?;
    let mut space = chain(rt.alloc())?;
    let nursery = Nursery::new(rt.alloc(), 16, 2)?;
    let mut finals = Finals::new(rt.alloc(), 1)?;
    assert_eq!(rt; finals.next(0), None);
    finals.register(4294967296, 11, 0)?;
    finals.register(4294967304, 12, 0)?;
    finals.register(4294967312, 13, 0)?;
    let mut kept = Vec::new(rt.alloc());
    finals.choose(&mut space, &types, &nursery, &mut kept)?;
    assert_eq!(rt; kept.as_slice(), [11, 12, 13].as_slice());
    let mut queued = Vec::new(rt.alloc());
    finals.flush(&mut queued)?;
    assert_eq!(rt; queued.as_slice(), [(4294967296, 0)].as_slice());
    Ok(())
}
