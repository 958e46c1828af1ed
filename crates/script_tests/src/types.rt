//! The table of types: an id twice, and a type too many.

use std::test::Fail;
use type_table::{MAX_TYPES, Shape, TypeFault, TypeInfo, TypeTable};

#[test]
fn refuses_an_id_twice_and_a_type_too_many(rt: HostRuntime) -> Result<(), Fail> {
    let info = TypeInfo {
        shape: Shape::Weak,
        destructor: false,
    };
    let mut table = TypeTable::new(rt.alloc())?;
    assert_eq!(rt; table.add(1, info), Ok(()));
    assert_eq!(rt; table.add(1, info), Err(TypeFault::Twice));
    for id in (4096..8191u16).rev() {
        assert_eq!(rt; table.add(id, info), Ok(()));
    }
    assert_eq!(rt; table.add(0, info), Err(TypeFault::TooMany));
    assert_eq!(rt; table.get(8190), Some(info));
    assert_eq!(rt; table.get(8191), None);
    assert_eq!(rt; table.len(), MAX_TYPES);
    Ok(())
}
