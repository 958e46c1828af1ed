//! The words of an object of each shape.

ghost use Rattle.std.specs.Prelude.{◌≡◌, ◌≤◌, Some, IfOk, IsTrue};
ghost use Rattle.type_table.specs.Table.{value_at};
ghost use Rattle.type_table.specs.Words.{words_in};
ghost use Rattle.object_model.specs.Layout.{layout_of};
ghost use Rattle.heap_space.specs.Places.{lies_in_one};
ghost use Rattle.object_view.specs.Views.{HasView, view_of};

use heap_space::Space;
use object_view::{Birth, ObjView, init, int_at, move_refs, ref_at, set_int, set_ref, view};
use std::alloc::{AllocError, Global};
use std::test::Fail;
use type_table::{Shape, TypeFault, TypeInfo, TypeTable};

// A table in which type 7 has this descriptor.
fn table_of(alloc: Global, info: TypeInfo) -> Result<TypeTable, TypeFault>
    ensures { IfOk result (λ table. value_at table 7 ≡ Some info) }
{
    let mut table = TypeTable::new(alloc).map_err(|_| TypeFault::OutOfMemory)?;
    table.add(7, info)?;
    Ok(table)
}

// A space with words of 1 at places 1 to 16.
fn ones(alloc: Global) -> Result<Space, AllocError>
    ensures { IfOk result (λ space. IsTrue (lies_in_one space.blocks 5 12)) }
{
    let mut space = Space::new(alloc, 16, 64)?;
    for a in 1..17 {
        space.write(a, 1);
    }
    Ok(space)
}

// The view of a new object of type 7 at the place 5, with birth 9.
fn newborn(space: &mut Space, types: &TypeTable, info: TypeInfo, len: u64) -> ObjView
    requires room { IsTrue (lies_in_one space.old.blocks 5 12) }
    requires small { words_in info.shape len ≤ 12 }
    requires known { value_at types.now 7 ≡ Some info }
    ensures view { result ≡ view_of 7 9 (layout_of info.shape 5 len) }
    ensures whole { HasView space.new result 5 }
{
    let birth = Birth {
        header: 7,
        number: 9,
        len,
        target: 0,
    };
    init(space, 5, info, birth);
    view(space, types, 5)
}

// The words from the place 4 on, as far as they are there.
fn words(space: &Space) -> [u64; 9] {
    let mut words = [0; 9];
    for (i, word) in words.iter_mut().enumerate() {
        let a = 4 + i as u64;
        if space.has(a) {
            *word = space.read(a);
        }
    }
    words
}

#[test]
#[tactic(auto, using(object_view::proofs::WholeLaws::views))]
fn fixed_object(rt: HostRuntime) -> Result<(), Fail> {
    let info = TypeInfo {
        shape: Shape::Fixed { ints: 2, refs: 1 },
        destructor: false,
    };
    let types = table_of(rt.alloc(), info)?;
    let mut space = ones(rt.alloc())?;
    let v = newborn(&mut space, &types, info, 3);
    assert_eq!(rt; words(&space), [1, 7, 9, 0, 0, 0, 1, 1, 1]);
    assert_eq!(rt; v.words, 5);
    set_int(&mut space, v, 5, 1, 40);
    set_ref(&mut space, v, 5, 0, 50);
    assert_eq!(rt; words(&space), [1, 7, 9, 0, 40, 50, 1, 1, 1]);
    assert_eq!(rt; int_at(&space, v, 5, 1), 40);
    assert_eq!(rt; ref_at(&space, v, 5, 0), 50);
    Ok(())
}

#[test]
#[tactic(auto, using(object_view::proofs::WholeLaws::views))]
fn array_of_whole_numbers(rt: HostRuntime) -> Result<(), Fail> {
    let info = TypeInfo {
        shape: Shape::IntArray,
        destructor: false,
    };
    let types = table_of(rt.alloc(), info)?;
    let mut space = ones(rt.alloc())?;
    let v = newborn(&mut space, &types, info, 3);
    assert_eq!(rt; words(&space), [1, 7, 9, 3, 0, 0, 0, 1, 1]);
    set_int(&mut space, v, 5, 2, 40);
    assert_eq!(rt; words(&space), [1, 7, 9, 3, 0, 0, 40, 1, 1]);
    assert_eq!(rt; int_at(&space, v, 5, 2), 40);
    assert_eq!(rt; v.ref_count, 0);
    Ok(())
}

#[test]
#[tactic(auto, using(object_view::proofs::WholeLaws::views))]
fn array_of_references(rt: HostRuntime) -> Result<(), Fail> {
    let info = TypeInfo {
        shape: Shape::RefArray,
        destructor: false,
    };
    let types = table_of(rt.alloc(), info)?;
    let mut space = ones(rt.alloc())?;
    let v = newborn(&mut space, &types, info, 3);
    set_ref(&mut space, v, 5, 0, 50);
    assert_eq!(rt; words(&space), [1, 7, 9, 3, 50, 0, 0, 1, 1]);
    assert_eq!(rt; ref_at(&space, v, 5, 0), 50);
    assert_eq!(rt; v.int_count, 0);
    Ok(())
}

#[test]
#[tactic(auto, using(object_view::proofs::WholeLaws::views))]
fn weak_object(rt: HostRuntime) -> Result<(), Fail> {
    let info = TypeInfo {
        shape: Shape::Weak,
        destructor: false,
    };
    let types = table_of(rt.alloc(), info)?;
    let mut space = ones(rt.alloc())?;
    let v = newborn(&mut space, &types, info, 3);
    assert_eq!(rt; words(&space), [1, 7, 9, 0, 1, 1, 1, 1, 1]);
    set_ref(&mut space, v, 5, 0, 50);
    assert_eq!(rt; words(&space), [1, 7, 9, 50, 1, 1, 1, 1, 1]);
    assert_eq!(rt; ref_at(&space, v, 5, 0), 50);
    assert_eq!(rt; v.ref_count, 0);
    Ok(())
}

#[test]
#[tactic(auto, using(object_view::proofs::WholeLaws::views))]
fn references_within_one_array(rt: HostRuntime) -> Result<(), Fail> {
    let info = TypeInfo {
        shape: Shape::RefArray,
        destructor: false,
    };
    let types = table_of(rt.alloc(), info)?;
    let mut space = ones(rt.alloc())?;
    let v = newborn(&mut space, &types, info, 4);
    set_ref(&mut space, v, 5, 0, 50);
    set_ref(&mut space, v, 5, 1, 60);
    set_ref(&mut space, v, 5, 2, 70);
    move_refs(&mut space, v, 5, 1, v, 5, 0, 3);
    assert_eq!(rt; words(&space), [1, 7, 9, 4, 50, 50, 60, 70, 1]);
    move_refs(&mut space, v, 5, 0, v, 5, 1, 3);
    assert_eq!(rt; words(&space), [1, 7, 9, 4, 50, 60, 70, 70, 1]);
    Ok(())
}
