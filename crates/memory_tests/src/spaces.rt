ghost use Rattle.std.specs.Prelude.{◌≤◌};

use heap_space::{Block, Space};
use std::alloc::{AllocError, Global};
use std::test::Fail;

#[test]
fn words_are_exchanged(rt: HostRuntime) -> Result<(), Fail> {
    let mut block = Block::zeroed(rt.alloc(), 3)?;
    block.write(1, 8);
    block.swap_words(0, 1);
    assert_eq!(rt; block.read(0), 8);
    assert_eq!(rt; block.read(1), 0);
    Ok(())
}

// The last of n new words.
fn last_word(alloc: Global, n: usize) -> Result<u64, AllocError>
    requires { (1 ≤ n) × (n ≤ 16777219) }
{
    let block = Block::zeroed(alloc, n)?;
    Ok(block.read(n - 1))
}

#[test]
fn greatest_block_is_zeroed(rt: HostRuntime) -> Result<(), Fail> {
    assert_eq!(rt; last_word(rt.alloc(), 16_777_219)?, 0);
    Ok(())
}

#[test]
fn blocks_come_at_their_places(rt: HostRuntime) -> Result<(), Fail> {
    let mut space = Space::new(rt.alloc(), 16, 64)?;
    let arena = space.add_arena()?;
    assert_eq!(rt; arena, 4_294_967_296);
    let first = space.add_large(100)?;
    assert_eq!(rt; first, 1_099_511_627_776);
    let second = space.add_large(70)?;
    assert_eq!(rt; second, 1_099_511_627_876);
    space.drop_large(first);
    assert!(rt; !space.has(first));
    assert!(rt; space.has(second));
    let third = space.add_large(100)?;
    assert_eq!(rt; third, 1_099_511_627_946);
    assert!(rt; space.has(third + 99));
    assert!(rt; !space.has(third + 100));
    assert!(rt; space.has(arena + 63));
    assert!(rt; !space.has(arena + 64));
    Ok(())
}
