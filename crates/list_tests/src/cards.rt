//! An object and some items of an array are remembered, and handed out.

ghost use Rattle.std.specs.Prelude.{◌≡◌, true, false, IfOk, IsTrue};
ghost use Rattle.heap_space.specs.Places.{has, word_at};
ghost use Rattle.object_header.specs.Words.{has_flag};
ghost use Rattle.object_header.specs.declared.flags.Flag.TheVariants.{Track, HasCards, CardsSet};

use heap_space::Space;
use remember_cards::{Remember, Span};
use std::alloc::{AllocError, Global};
use std::test::Fail;

// A space with the settled object of type 1 with one reference at place 1, and at place 4 the
// settled array of type 2 of 300 references, which has a card table.
fn two_objects(alloc: Global) -> Result<Space, AllocError>
    ensures object { IfOk result (λ space. IsTrue (has space.blocks 1)) }
    ensures array { IfOk result (λ space. IsTrue (has space.blocks 4)) }
    ensures object_track { IfOk result (λ space. has_flag (word_at space.blocks 1) Track ≡ true) }
    ensures object_cards { IfOk result (λ space. has_flag (word_at space.blocks 1) CardsSet ≡ false) }
    ensures array_track { IfOk result (λ space. has_flag (word_at space.blocks 4) Track ≡ true) }
    ensures array_cards { IfOk result (λ space. has_flag (word_at space.blocks 4) CardsSet ≡ false) }
{
    let mut space = Space::new(alloc, 512, 64)?;
    space.write(1, 65537);
    space.write(4, 1114114);
    Ok(space)
}

#[test]
fn a_copy_into_an_array(rt: HostRuntime) -> Result<(), Fail> {
    let mut space = two_objects(rt.alloc())?;
    let mut remember = Remember::new(rt.alloc(), 128)?;
    remember.barrier(&mut space, 1)?;
    remember.barrier_copy(&mut space, 4, 120, 20)?;
    let all = u64::MAX;
    assert_eq!(rt;
        remember.drain_next(),
        Some(Span {
            a: 1,
            from: 0,
            to: all
        })
    );
    assert_eq!(rt;
        remember.drain_next(),
        Some(Span {
            a: 4,
            from: 0,
            to: 128
        })
    );
    assert_eq!(rt;
        remember.drain_next(),
        Some(Span {
            a: 4,
            from: 128,
            to: 256
        })
    );
    assert_eq!(rt; remember.drain_next(), None);
    Ok(())
}
