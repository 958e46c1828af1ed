use heap_space::Space;
use object_model::Settings;
use old_space::Old;
use std::test::Fail;
use sweep_steps::{SweepState, sweep};

#[test]
fn small_and_large_blocks(rt: HostRuntime) -> Result<(), Fail> {
    let mut space = Space::new(rt.alloc(), 4096, 16_384)?;
    let mut old = Old::new(rt.alloc(), &Settings::DEFAULT)?;
    let small = old.take(&mut space, 64)?;
    assert_eq!(rt; small, 4_294_967_304);
    let large = old.take(&mut space, 65)?;
    assert_eq!(rt; large, 1_099_511_627_776);
    let mut blocks = Vec::new(rt.alloc());
    old.live_blocks(&space, &mut blocks)?;
    assert_eq!(rt; blocks.as_slice(), [(small, 64), (large, 65)].as_slice());
    old.begin_sweep(&mut space);
    assert!(rt; old.waits(&space, small));
    assert!(rt; old.waits(&space, large));
    old.give_back(&mut space, large, 65);
    assert!(rt; !space.has(large));
    Ok(())
}

#[test]
fn pages_are_swept_before_large_blocks(rt: HostRuntime) -> Result<(), Fail> {
    let mut space = Space::new(rt.alloc(), 4096, 16_384)?;
    let mut old = Old::new(rt.alloc(), &Settings::DEFAULT)?;
    let small = old.take(&mut space, 64)?;
    let large = old.take(&mut space, 65)?;
    old.begin_sweep(&mut space);
    let mut freed = Vec::new(rt.alloc());
    assert_eq!(rt;
        sweep(1, &mut old, &mut space, &mut freed)?,
        SweepState::Working
    );
    assert!(rt; space.has(small));
    assert!(rt; space.has(large));
    assert_eq!(rt;
        sweep(1, &mut old, &mut space, &mut freed)?,
        SweepState::Finished
    );
    assert!(rt; !space.has(large));
    assert_eq!(rt; freed.as_slice(), [0, 0].as_slice());
    Ok(())
}
