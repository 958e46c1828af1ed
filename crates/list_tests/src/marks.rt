//! Two objects that refer to each other are visited in two steps.

ghost use Rattle.std.specs.Prelude.{◌≡◌, [], ◌∷◌, Some, false, IfOk};
ghost use Rattle.type_table.specs.Table.{value_at};
ghost use Rattle.mark_steps.specs.Visits.{CanVisit};

use heap_space::Space;
use mark_steps::{Gray, MarkEnd};
use nursery_gaps::Nursery;
use std::alloc::{AllocError, Global};
use std::test::Fail;
use type_table::{Shape, TypeFault, TypeInfo, TypeTable};

// A table in which objects of type 0 have two references.
fn pairs(alloc: Global) -> Result<TypeTable, TypeFault>
    ensures { IfOk result (λ table.
        value_at table 0 ≡ Some (record { shape = Shape.Fixed 0 2; destructor = false })) }
{
    let mut table = TypeTable::new(alloc).map_err(|_| TypeFault::OutOfMemory)?;
    let info = TypeInfo {
        shape: Shape::Fixed { ints: 0, refs: 2 },
        destructor: false,
    };
    table.add(0, info)?;
    Ok(table)
}

// A space with two objects of type 0, of births 7 and 8, in the first words of an arena. Each refers
// to the other, the first to place 5 of the nursery too, and the second to itself.
fn two_objects(alloc: Global, types: &TypeTable) -> Result<Space, AllocError>
    requires { value_at types.now 0 ≡ Some (record { shape = Shape.Fixed 0 2; destructor = false }) }
    ensures { IfOk result (λ space.
        CanVisit types.now 16 space (4294967296 ∷ []) (4294967296 ∷ 4294967300 ∷ [])) }
{
    let mut space = Space::new(alloc, 16, 64)?;
    let a = space.add_arena()?;
    space.write(a + 1, 7);
    space.write(a + 2, a + 4);
    space.write(a + 3, 5);
    space.write(a + 5, 8);
    space.write(a + 6, a);
    space.write(a + 7, a + 4);
    Ok(space)
}

#[test]
fn visits_in_two_steps(rt: HostRuntime) -> Result<(), Fail> {
    let types = pairs(rt.alloc())?;
    let mut space = two_objects(rt.alloc(), &types)?;
    let nursery = Nursery::new(rt.alloc(), 16, 0)?;
    let mut gray = Gray::new(rt.alloc())?;
    let mut visited = Vec::new(rt.alloc());
    gray.push(4294967296)?;
    let first = gray.mark(&mut space, &types, &nursery, 4, &mut visited)?;
    assert_eq!(rt; first, MarkEnd::Budget);
    assert_eq!(rt; visited.as_slice(), [7].as_slice());
    let second = gray.mark(&mut space, &types, &nursery, 5, &mut visited)?;
    assert_eq!(rt; second, MarkEnd::Empty { words: 4 });
    assert_eq!(rt; visited.as_slice(), [7, 8].as_slice());
    Ok(())
}
