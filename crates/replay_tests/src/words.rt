//! The words of a heap, as a run leaves them: worked out by hand, and read back through the heap at every place of each object.
ghost use Rattle.std.specs.Prelude.{◌≡◌};
ghost use Rattle.heap_core.specs.Heap.{closed_heap};

use crate::rows::{Outcome, run_on};
use heap_core::Heap;
use replay_top::Status;
use std::alloc::{AllocError, Global};
use std::test::Fail;

/// Words that stand from a place on.
struct Run {
    place: u64,
    words: &'static [u64],
}

/// An object of type 1 has 4 words, one of type 2 has 3 and can't refer, and one of type 3 has 12, more than a young one. Type 4 are arrays
/// of references, with cards of 4 items, and type 5 weak objects. A page has 64 words, and a block of more than 16 is large.
const SETUP: &[u8] =
    b"set young 8\nset small 16\nset page 64\nset card 4\ntype 1 fixed 1 1\ntype 2 fixed 1 0\ntype 3 fixed 9 1\n\
type 4 refs\ntype 5 weak\n";

/// Two young objects, of which the first has a home and the second is pinned, and an old small one and a large array that refer to them.
const BIRTHS: &[u8] =
    b"new 0 1\nnew 1 2\nnew 2 3\nnew 3 4 14\nput 0 0 7\nlink 0 0 1\nput 1 0 9\nlink 2 0 0\nlink 3 13 1\nid 0\npin 1\n";

/// The flags are Track 2^16, HasShadow 2^18, Pinned 2^19, HasCards 2^20, CardsSet 2^21 and Shadow 2^23.
const BORN: [Run; 7] = [
    // type 1, HasShadow; its birth, its number, the place of the second object
    Run {
        place: 1,
        words: &[262_145, 1, 7, 5],
    },
    // type 2, Pinned; and nothing behind it yet
    Run {
        place: 5,
        words: &[524_290, 2, 9, 0, 0],
    },
    // the page of class 12: no chain, one live block, the first fresh one, no neighbours, with room
    Run {
        place: 4_294_967_296,
        words: &[12, 0, 1, 4_294_967_316, 0, 0, 1, 0],
    },
    // type 3, remembered whole; it refers to the first object
    Run {
        place: 4_294_967_304,
        words: &[3, 3, 0, 0, 0, 0, 0, 0, 0, 0, 0, 1, 0],
    },
    // the page of class 4, and in it the home of the first object, Shadow
    Run {
        place: 4_294_967_360,
        words: &[4, 0, 1, 4_294_967_372, 0, 0, 1, 0, 8_388_608, 0],
    },
    // the third page is unused
    Run {
        place: 4_294_967_424,
        words: &[0],
    },
    // type 4, Track, HasCards and CardsSet; 14 items, of which the last refers to the second object
    Run {
        place: 1_099_511_627_776,
        words: &[3_211_268, 4, 14, 0, 0, 0, 0, 0, 0, 0, 0, 0, 0, 0, 0, 0, 5],
    },
];

/// The first object moves into its home. It is kept for the pinned one, and so is the array: whole, without Track and CardsSet. What the
/// third object refers to is old now.
const SETTLED: [Run; 6] = [
    // the mark of what left, and where to
    Run {
        place: 1,
        words: &[18_446_744_073_709_551_615, 4_294_967_368],
    },
    Run {
        place: 5,
        words: &[524_290, 2, 9],
    },
    Run {
        place: 4_294_967_304,
        words: &[65_539, 3, 0, 0, 0, 0, 0, 0, 0, 0, 0, 4_294_967_368, 0],
    },
    Run {
        place: 4_294_967_360,
        words: &[4, 0, 1, 4_294_967_372, 0, 0, 1, 0, 1, 1, 7, 5, 0],
    },
    Run {
        place: 4_294_967_424,
        words: &[0],
    },
    Run {
        place: 1_099_511_627_776,
        words: &[1_048_580, 4, 14, 0, 0, 0, 0, 0, 0, 0, 0, 0, 0, 0, 0, 0, 5],
    },
];

/// Births in the gaps around the pinned object: one before it, and the others behind it. The third of them has a home. The fourth is weak,
/// and its target is the first. The second is left.
const AROUND: &[u8] =
    b"minor\nnew 4 1\nnew 5 2\nnew 6 1\nput 4 0 21\nlink 4 0 0\nput 5 0 22\nput 6 0 23\nlink 6 0 4\nid 6\nweak 7 5 4\n\
link 2 0 6\n";

const BORN_AROUND: [Run; 4] = [
    // objects 5, 2, 6, 7 and 8, one behind another
    Run {
        place: 1,
        words: &[
            1,
            5,
            21,
            4_294_967_368,
            524_290,
            2,
            9,
            2,
            6,
            22,
            262_145,
            7,
            23,
            1,
            5,
            8,
            1,
        ],
    },
    // the third object is remembered once more
    Run {
        place: 4_294_967_304,
        words: &[3, 3, 0, 0, 0, 0, 0, 0, 0, 0, 0, 11, 0],
    },
    // the page of class 4 has a second home
    Run {
        place: 4_294_967_360,
        words: &[4, 0, 2, 4_294_967_376, 0, 0, 1, 0, 1, 1, 7, 5, 8_388_608, 0],
    },
    Run {
        place: 1_099_511_627_776,
        words: &[1_048_580, 4, 14, 0, 0, 0, 0, 0, 0, 0, 0, 0, 0, 0, 0, 0, 5],
    },
];

/// Nothing is pinned any more, and object 6 is left. All others settle, slot by slot.
const AGAIN: &[u8] = b"unpin 1\ndrop 5\nminor\n";

const SETTLED_AGAIN: [Run; 4] = [
    Run {
        place: 4_294_967_304,
        words: &[65_539, 3, 0, 0, 0, 0, 0, 0, 0, 0, 0, 4_294_967_372, 0],
    },
    // the page of class 4 with objects 1, 7 in its home, and 5
    Run {
        place: 4_294_967_360,
        words: &[
            4,
            0,
            3,
            4_294_967_380,
            0,
            0,
            1,
            0,
            65_537,
            1,
            7,
            4_294_967_432,
            65_537,
            7,
            23,
            4_294_967_376,
            65_537,
            5,
            21,
            4_294_967_368,
            0,
        ],
    },
    // a page of class 3 with objects 2 and 8
    Run {
        place: 4_294_967_424,
        words: &[
            3,
            0,
            2,
            4_294_967_438,
            0,
            0,
            1,
            0,
            65_538,
            2,
            9,
            65_541,
            8,
            4_294_967_376,
            0,
        ],
    },
    // Track and HasCards
    Run {
        place: 1_099_511_627_776,
        words: &[
            1_114_116,
            4,
            14,
            0,
            0,
            0,
            0,
            0,
            0,
            0,
            0,
            0,
            0,
            0,
            0,
            0,
            4_294_967_432,
        ],
    },
];

/// Whether these words stand there.
fn stands(heap: &Heap, run: &Run) -> bool {
    (run.place..)
        .zip(run.words.iter())
        .all(|(place, word)| heap.word(place) == Some(*word))
}

/// The places of those runs of words that do not stand in the heap.
fn missing(alloc: Global, heap: &Heap, runs: &[Run]) -> Result<Vec<u64>, AllocError> {
    let mut places = Vec::new(alloc);
    for run in runs {
        if !stands(heap, run) {
            places.push(run.place)?;
        }
    }
    Ok(places)
}

/// How many of so many words from a place on are not 0.
fn count_words(heap: &Heap, place: u64, words: u64) -> usize {
    (place..place.saturating_add(words))
        .filter(|at| heap.word(*at).is_some_and(|word| word != 0))
        .count()
}

/// How many words are not 0 behind the births: of the nursery, and of the first arena.
fn words_born(alloc: Global, heap: &mut Heap) -> Result<(usize, usize), AllocError>
    requires { heap.old ≡ closed_heap }
{
    let mut script = Vec::from_slice(alloc, SETUP)?;
    script.extend_from_slice(BIRTHS)?;
    run_on(alloc, script, heap)?;
    Ok((
        count_words(heap, 1, 4096),
        count_words(heap, 4_294_967_296, 2048),
    ))
}

/// The same of a heap of its own.
fn words_of_own(alloc: Global) -> Result<(usize, usize), AllocError> {
    let mut heap = Heap::closed();
    words_born(alloc, &mut heap)
}

/// Runs a script of these pieces over a heap, and answers which of the runs of words do not stand there then.
fn missing_behind(
    alloc: Global,
    heap: &mut Heap,
    pieces: &[&[u8]],
    runs: &[Run],
) -> Result<(Status, Vec<u64>), AllocError>
    requires { heap.old ≡ closed_heap }
{
    let mut script = Vec::from_slice(alloc, SETUP)?;
    for piece in pieces {
        script.extend_from_slice(piece)?;
    }
    let ran: Outcome = run_on(alloc, script, heap)?;
    Ok((ran.status, missing(alloc, heap, runs)?))
}

/// Which of the runs of words do not stand where a script of these pieces has ended, in a heap of its own.
fn missing_after(
    alloc: Global,
    pieces: &[&[u8]],
    runs: &[Run],
) -> Result<(Status, Vec<u64>), AllocError> {
    let mut heap = Heap::closed();
    missing_behind(alloc, &mut heap, pieces, runs)
}

// What births, stores, a home, a pin and the write barrier leave in words.
#[test]
fn births_in_words(rt: HostRuntime) -> Result<(), Fail> {
    let (status, places) = missing_after(rt.alloc(), &[BIRTHS], &BORN)?;
    assert_eq!(rt; status, Status::Done);
    assert_eq!(rt; places.as_slice(), [].as_slice());
    Ok(())
}

// And nothing stands anywhere else.
#[test]
fn births_write_nothing_else(rt: HostRuntime) -> Result<(), Fail> {
    let (young, old) = words_of_own(rt.alloc())?;
    assert_eq!(rt; young, 7);
    assert_eq!(rt; old, 12);
    Ok(())
}

// What two minor collections in a row leave in words: around a pinned object, and once it is not pinned any more.
#[test]
fn two_minor_collections_in_words(rt: HostRuntime) -> Result<(), Fail> {
    let stages: [(&[&[u8]], &[Run]); 3] = [
        (&[BIRTHS, b"minor\n"], &SETTLED),
        (&[BIRTHS, AROUND], &BORN_AROUND),
        (&[BIRTHS, AROUND, AGAIN], &SETTLED_AGAIN),
    ];
    for (pieces, runs) in stages {
        let (status, places) = missing_after(rt.alloc(), pieces, runs)?;
        assert_eq!(rt; status, Status::Done);
        assert_eq!(rt; places.as_slice(), [].as_slice());
    }
    Ok(())
}
