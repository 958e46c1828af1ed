//! Places of blocks, as worked out by hand: pages of 64 words, two in an arena.

ghost use Rattle.std.specs.Prelude.{◌≡◌, ◌≢◌, ℕ, ◌+◌, List, ◌∷◌};
ghost use Rattle.heap_space.specs.Extents.{Extent};
ghost use Rattle.size_pages.specs.PageWords.{word_in};
ghost use Rattle.size_pages.specs.HasBlocks.{HasBlocks, IsLive};

use heap_space::Space;
use size_pages::Pages;
use std::test::Fail;

/// Writes the header and the birth of the object in a live block of 10 words.
fn write_object(pages: &Pages, space: &mut Space, block: u64, header: u64, birth: u64)
    requires { IsLive pages.now space.old (block, 10) }
    ensures blocks { (live : List Extent) (waiting : List ℕ) → HasBlocks pages.now space.old ((block, 10) ∷ live) waiting → HasBlocks pages.now space.new ((block, 10) ∷ live) waiting }
    ensures header { word_in space.new block ≡ header }
    ensures rest { (e : ℕ) → e ≢ block → e ≢ block + 1 → word_in space.new e ≡ word_in space.old e }
{
    space.write(block, header);
    space.write(block + 1, birth);
}

#[test]
fn pages_are_begun_filled_and_ended(rt: HostRuntime) -> Result<(), Fail> {
    let mut space = Space::new(rt.alloc(), 16, 128)?;
    let mut pages = Pages::new(rt.alloc(), 64, 2, 56);
    assert_eq!(rt; pages.take(&mut space, 10)?, 4294967304);
    assert_eq!(rt; pages.take(&mut space, 10)?, 4294967314);
    assert_eq!(rt; pages.take(&mut space, 10)?, 4294967324);
    assert_eq!(rt; pages.take(&mut space, 10)?, 4294967334);
    assert_eq!(rt; pages.take(&mut space, 10)?, 4294967344);
    let sixth = pages.take(&mut space, 10)?;
    assert_eq!(rt; sixth, 4294967368);
    pages.give_back(&mut space, sixth, 10);
    assert_eq!(rt; pages.take(&mut space, 20)?, 4294967368);
    Ok(())
}

#[test]
fn a_free_block_comes_again(rt: HostRuntime) -> Result<(), Fail> {
    let mut space = Space::new(rt.alloc(), 16, 128)?;
    let mut pages = Pages::new(rt.alloc(), 64, 2, 56);
    let first = pages.take(&mut space, 10)?;
    let second = pages.take(&mut space, 10)?;
    assert_eq!(rt; second, 4294967314);
    pages.give_back(&mut space, second, 10);
    assert_eq!(rt; pages.take(&mut space, 10)?, 4294967314);
    assert_eq!(rt; first, 4294967304);
    Ok(())
}

#[test]
fn a_page_that_waits_is_unused_after_its_sweep(rt: HostRuntime) -> Result<(), Fail> {
    let mut space = Space::new(rt.alloc(), 16, 128)?;
    let mut pages = Pages::new(rt.alloc(), 64, 2, 56);
    let mut blocks = Vec::new(rt.alloc());
    pages.live_blocks(&space, &mut blocks)?;
    assert_eq!(rt; blocks.len(), 0);
    let block = pages.take(&mut space, 10)?;
    pages.begin_sweep(&mut space);
    assert!(rt; pages.waits(&space, block));
    pages.give_back(&mut space, block, 10);
    assert_eq!(rt; pages.waiting(), 1);
    let mut freed = Vec::new(rt.alloc());
    pages.sweep_page(&mut space, &mut freed)?;
    assert_eq!(rt; freed.len(), 0);
    assert_eq!(rt; pages.waiting(), 0);
    assert_eq!(rt; pages.take(&mut space, 20)?, 4294967304);
    Ok(())
}

#[test]
fn a_sweep_frees_what_was_not_visited(rt: HostRuntime) -> Result<(), Fail> {
    let mut space = Space::new(rt.alloc(), 16, 128)?;
    let mut pages = Pages::new(rt.alloc(), 64, 2, 56);
    let visited = pages.take(&mut space, 10)?;
    write_object(&pages, &mut space, visited, 131_079, 5);
    let dead = pages.take(&mut space, 10)?;
    write_object(&pages, &mut space, dead, 7, 9);
    pages.begin_sweep(&mut space);
    let mut freed = Vec::new(rt.alloc());
    pages.sweep_page(&mut space, &mut freed)?;
    assert_eq!(rt; freed.as_slice(), [9].as_slice());
    assert_eq!(rt; space.read(visited), 7);
    assert_eq!(rt; pages.take(&mut space, 10)?, dead);
    assert_eq!(rt; pages.take(&mut space, 10)?, 4294967324);
    Ok(())
}

#[test]
fn pages_are_swept_by_rising_place(rt: HostRuntime) -> Result<(), Fail> {
    let mut space = Space::new(rt.alloc(), 16, 128)?;
    let mut pages = Pages::new(rt.alloc(), 64, 2, 56);
    let first = pages.take(&mut space, 56)?;
    let second = pages.take(&mut space, 20)?;
    let third = pages.take(&mut space, 10)?;
    assert_eq!(rt; first, 4294967304);
    assert_eq!(rt; third, 4294967432);
    pages.give_back(&mut space, second, 20);
    pages.begin_sweep(&mut space);
    assert_eq!(rt; pages.waiting(), 2);
    let mut freed = Vec::new(rt.alloc());
    pages.sweep_page(&mut space, &mut freed)?;
    assert_eq!(rt; freed.as_slice(), [0].as_slice());
    assert_eq!(rt; pages.take(&mut space, 30)?, 4294967304);
    Ok(())
}
