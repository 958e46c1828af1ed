use heap_space::Space;
use large_objects::Large;
use std::test::Fail;

#[test]
fn places_are_not_used_again(rt: HostRuntime) -> Result<(), Fail> {
    let mut space = Space::new(rt.alloc(), 16, 64)?;
    let mut large = Large::new(rt.alloc())?;
    let first = large.take(&mut space, 100)?;
    assert_eq!(rt; first, 1_099_511_627_776);
    assert_eq!(rt; large.take(&mut space, 70)?, 1_099_511_627_876);
    large.give_back(&mut space, first, 100);
    assert_eq!(rt; large.take(&mut space, 100)?, 1_099_511_627_946);
    let mut blocks = Vec::new(rt.alloc());
    large.live_blocks(&space, &mut blocks)?;
    assert_eq!(rt;
        blocks.as_slice(),
        [(1_099_511_627_876, 70), (1_099_511_627_946, 100)].as_slice()
    );
    Ok(())
}

#[test]
fn unvisited_block_is_freed(rt: HostRuntime) -> Result<(), Fail> {
    let mut space = Space::new(rt.alloc(), 16, 64)?;
    let mut large = Large::new(rt.alloc())?;
    let first = large.take(&mut space, 100)?;
    large.begin_sweep(&mut space);
    assert_eq!(rt; large.waiting(), 1);
    assert!(rt; large.waits(&space, first));
    let second = large.take(&mut space, 70)?;
    assert_eq!(rt; large.waiting(), 1);
    let mut freed = Vec::new(rt.alloc());
    large.sweep_block(&mut space, &mut freed)?;
    assert_eq!(rt; freed.as_slice(), [0].as_slice());
    assert!(rt; !space.has(first));
    assert!(rt; space.has(second));
    Ok(())
}
