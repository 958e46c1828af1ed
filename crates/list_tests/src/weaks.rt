//! A weak object loses its target at the end of marking.

ghost use Rattle.std.specs.Prelude.{◌≡◌, [], ◌∷◌, Some, false, IfOk};
ghost use Rattle.type_table.specs.Table.{value_at};
ghost use Rattle.type_table.specs.declared.info.Shape.TheVariants.{Weak};
ghost use Rattle.weak_lists.specs.Conditions.{CanClear};

use heap_space::Space;
use nursery_gaps::Nursery;
use std::alloc::{AllocError, Global};
use std::test::Fail;
use type_table::{Shape, TypeFault, TypeInfo, TypeTable};
use weak_lists::Weaks;

// A table in which objects of type 0 are weak.
fn weak_type(alloc: Global) -> Result<TypeTable, TypeFault>
    ensures { IfOk result (λ table.
        value_at table 0 ≡ Some (record { shape = Weak; destructor = false })) }
{
    let mut table = TypeTable::new(alloc).map_err(|_| TypeFault::OutOfMemory)?;
    let info = TypeInfo {
        shape: Shape::Weak,
        destructor: false,
    };
    table.add(0, info)?;
    Ok(table)
}

// A space with two weak objects of births 7 and 8 in the first words of an arena. The target of
// each is the other.
fn two_weak(alloc: Global, types: &TypeTable) -> Result<Space, AllocError>
    requires { value_at types.now 0 ≡ Some (record { shape = Weak; destructor = false }) }
    ensures { IfOk result (λ space.
        CanClear types.now 16 space (4294967299 ∷ 4294967296 ∷ []) (4294967296 ∷ 4294967299 ∷ [])) }
{
    let mut space = Space::new(alloc, 16, 64)?;
    let a = space.add_arena()?;
    space.write(a + 1, 7);
    space.write(a + 2, a + 3);
    space.write(a + 4, 8);
    space.write(a + 5, a);
    Ok(space)
}

#[test]
fn targets_are_cleared(rt: HostRuntime) -> Result<(), Fail> {
    let types = weak_type(rt.alloc())?;
    let mut space = two_weak(rt.alloc(), &types)?;
    let nursery = Nursery::new(rt.alloc(), 16, 0)?;
    let mut weaks = Weaks::new(rt.alloc())?;
    let mut cleared = Vec::new(rt.alloc());
    weaks.add(4294967299)?;
    weaks.add(0)?;
    weaks.drop_last();
    weaks.add(0)?;
    weaks.place_last(4294967296);
    weaks.after_marking(&mut space, &types, &nursery, &mut cleared)?;
    assert_eq!(rt; cleared.as_slice(), [7, 8].as_slice());
    assert!(rt; space.has(4294967301) && space.read(4294967301) == 0);
    Ok(())
}

#[test]
fn what_is_dead_loses_no_target(rt: HostRuntime) -> Result<(), Fail> {
    let types = weak_type(rt.alloc())?;
    let mut space = two_weak(rt.alloc(), &types)?;
    let nursery = Nursery::new(rt.alloc(), 16, 0)?;
    let mut weaks = Weaks::new(rt.alloc())?;
    let mut cleared = Vec::new(rt.alloc());
    weaks.add(4294967299)?;
    weaks.add(4294967296)?;
    weaks.drop_dead(&[4294967296]);
    weaks.after_marking(&mut space, &types, &nursery, &mut cleared)?;
    assert_eq!(rt; cleared.as_slice(), [8].as_slice());
    Ok(())
}
