//! A home that is kept and taken, and the hash of one.

use shadow_ids::{Shadows, hash_of};
use std::test::Fail;

#[test]
fn a_home_is_taken_once(rt: HostRuntime) -> Result<(), Fail> {
    let mut shadows = Shadows::new(rt.alloc())?;
    assert!(rt; shadows.keep_home(5, 4294967304).is_ok());
    assert_eq!(rt; shadows.home(5), Some(4294967304));
    assert_eq!(rt; shadows.take_home(5), Some(4294967304));
    assert_eq!(rt; shadows.take_home(5), None);
    assert_eq!(rt; shadows.take_any(), None);
    assert_eq!(rt; hash_of(4294967304), 4563402760);
    Ok(())
}
