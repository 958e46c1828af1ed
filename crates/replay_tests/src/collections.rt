//! Collections over many objects, of all kinds, and in the smallest steps.

use crate::rows::{Machine, Outcome, SURE, run_over};
use replay_top::Status;
use std::alloc::{AllocError, Global};
use std::test::Fail;

/// What a script writes within so many bytes, and how its run ends.
fn replayed(alloc: Global, script: Vec<u8>, room: usize) -> Result<Outcome, AllocError> {
    run_over(alloc, &["replay", "s"], script, Machine { room, ..SURE })
}

/// How many lines of a text begin with these bytes.
fn count_lines(text: &[u8], front: &[u8]) -> usize {
    text.split(|byte| *byte == b'\n')
        .filter(|line| line.starts_with(front))
        .count()
}

/// A script in which so many young objects are born, each of which refers to the one before it, and slot 0 leads to the last
/// of them. They are collected, and slot 0 goes back to the first.
fn chain_script(alloc: Global, count: u64) -> Result<Vec<u8>, AllocError> {
    let mut script = Vec::from_slice(alloc, b"set nursery 1048576\ntype 1 fixed 0 1\nnew 0 1\n")?;
    for _ in 1..count {
        script.extend_from_slice(b"new 1 1\nlink 1 0 0\nmove 0 1\n")?;
    }
    script.extend_from_slice(b"minor\n")?;
    for _ in 1..count {
        script.extend_from_slice(b"load 0 0 0\n")?;
    }
    script.extend_from_slice(b"where 0\nload 1 0 0\nused\n")?;
    Ok(script)
}

/// What the script of a chain writes.
fn chained(alloc: Global, count: u64, room: usize) -> Result<Outcome, AllocError> {
    replayed(alloc, chain_script(alloc, count)?, room)
}

// A minor collection settles a chain of any length: it keeps a list, and does not go down by calls.
#[test]
fn a_long_chain_settles(rt: HostRuntime) -> Result<(), Fail> {
    let got = chained(rt.alloc(), 100_000, 4_000_000)?;
    assert_eq!(rt; got.status, Status::Done);
    assert_eq!(rt; count_lines(&got.out, b"minor 100000 0"), 1);
    assert_eq!(rt; count_lines(&got.out, b"loaded "), 100_000);
    // A page has 168 objects of 3 words behind its 8 words. The last object settled first, and the first is number 39 of page 595.
    let end = b"loaded 1\nwhere old 4295272061\nloaded nil\nused 300000 0\n".as_slice();
    assert_eq!(rt; got.out.ends_with(end), true);
    Ok(())
}

/// Objects of all kinds, which settle: arrays and weak objects, objects of several size classes, and large ones; finalizers in a chain
/// (8, 9, 10) and in a cycle (11, 12); structures with links of both kinds. Slots 0, 5 and 6 are left, and a structure keeps 13.
const OBJECTS: [&[u8]; 12] = [
    b"set page 64\nset small 16\nset card 4\nset minimum 64\ntype 1 fixed 1 2 destructor\ntype 2 refs\ntype 3 weak\n",
    b"type 4 fixed 9 1\ntype 5 ints destructor\n",
    b"new 0 1\nnew 1 2 20\nlink 0 0 1\nnew 2 4\nlink 1 19 2\nput 2 8 33\n",
    b"new 3 1\nnew 4 2 5\nlink 3 0 4\nlink 4 4 3\nweak 5 3 3\nweak 6 3 2\n",
    b"new 7 1\nnew 8 1\nnew 9 1\nlink 7 0 8\nlink 8 0 9\nregister 7 0\nregister 8 0\nregister 9 1\n",
    b"new 10 1\nnew 11 4\nlink 10 0 11\nlink 11 0 10\nregister 10 1\nregister 11 2\n",
    b"new 12 4\nplink 70 12 plain 1\n",
    b"new 13 2 3\nplink 80 13 plain 0\n",
    b"new 14 5 30\nolink 90 14 light 2\nolink 91 14 light 0\n",
    b"new 15 2 1100\nlink 15 1099 3\nminor\n",
    b"drop 1\ndrop 2\ndrop 3\ndrop 4\ndrop 7\ndrop 8\ndrop 9\n",
    b"drop 10\ndrop 11\ndrop 12\ndrop 13\ndrop 14\ndrop 15\n",
];

/// Four cycles, and what the heap answers behind each.
const CYCLES: [&[u8]; 9] = [
    b"collect\nused\nload 20 0 0\nload 21 20 19\nget 21 8\nderef 22 5\nderef 22 6\nsame 21 22\n",
    b"where 0\nwhere 20\nwhere 21\ntoobj 23 70\nwhere 23\ncount 70\nnextdead\ncount 80\ncount 90\n",
    b"next 24 0\nload 25 24 0\nload 26 25 0\nnext 27 1\nload 28 27 0\nload 29 28 0\n",
    b"next 30 2\nnext 31 0\nnext 31 1\n",
    b"drop 20\ndrop 21\ndrop 22\ndrop 23\ndrop 24\ndrop 25\ndrop 26\ndrop 27\ndrop 28\ndrop 29\n",
    b"collect\nused\nnext 24 0\nnext 25 1\nnext 26 2\ndrop 24\ndrop 26\n",
    b"collect\nused\nnext 24 1\nnext 25 2\ndrop 24\ndrop 6\ndec 70\n",
    b"collect\nused\nwhere 0\nload 20 0 0\nwhere 20\nload 21 20 19\nwhere 21\nderef 22 5\nnextdead\n",
    b"next 24 0\nnext 24 1\nnext 24 2\n",
];

/// What all of it writes, but for the lines of births, of collections, of visits and of what is freed.
const TOLD: [&[u8]; 12] = [
    b"cleared 6\nkept 8\nkept 9\nkept 10\nkept 11\nkept 12\ndestroyed 4\ndestroyed 15\n",
    b"pending 80\nunlinked 90 2\nreleased 91\n",
    b"queued 8 0\nqueued 11 1\nthreshold 89\n",
    b"used 90 0\nloaded 2\nloaded 3\ngot 33\nderef nil\nderef 3\nsame yes\n",
    b"where old 4294967304\nwhere old 1099511628879\nwhere old 4294967368\ntoobj 13\nwhere old 4294967392\n",
    b"count 2305843009213693953\nnextdead 80\ncount 1\ncount 2\n",
    b"next 8\nloaded 9\nloaded 10\nnext 11\nloaded 12\nloaded 11\nnext nil\nnext nil\nnext nil\n",
    b"kept 9\nkept 10\nkept 11\nkept 12\ndestroyed 8\nqueued 9 0\nqueued 12 2\nthreshold 124\nused 85 0\n",
    b"next 9\nnext nil\nnext 12\nkept 10\ndestroyed 9\ndestroyed 11\nqueued 10 1\nthreshold 114\n",
    b"used 63 0\nnext 10\nnext nil\ndestroyed 10\npending 70\nthreshold 78\nused 43 0\n",
    b"where old 4294967304\nloaded 2\nwhere old 1099511628879\nloaded 3\nwhere old 4294967368\nderef nil\n",
    b"nextdead 70\nnext nil\nnext nil\nnext nil\n",
];

/// Appends texts, one after another.
fn append_all(text: &mut Vec<u8>, pieces: &[&[u8]]) -> Result<(), AllocError> {
    for piece in pieces {
        text.extend_from_slice(piece)?;
    }
    Ok(())
}

/// What the cycles write with these settings for their steps.
fn cycled(alloc: Global, steps: &[u8]) -> Result<Outcome, AllocError> {
    let mut script = Vec::from_slice(alloc, steps)?;
    append_all(&mut script, &OBJECTS)?;
    append_all(&mut script, &CYCLES)?;
    replayed(alloc, script, 10_000)
}

/// Whether a line tells of a birth, a collection, a visit or what is freed, or is empty.
fn is_left_out(line: &[u8]) -> bool {
    let fronts: [&[u8]; 5] = [b"new ", b"minor ", b"step ", b"visited ", b"freed "];
    line.is_empty() || fronts.iter().any(|front| line.starts_with(front))
}

/// The lines of a text that are not left out.
fn told_lines(alloc: Global, text: &[u8]) -> Result<Vec<u8>, AllocError> {
    let mut told = Vec::new(alloc);
    for line in text.split(|byte| *byte == b'\n') {
        if !is_left_out(line) {
            told.extend_from_slice(line)?;
            told.push(b'\n')?;
        }
    }
    Ok(told)
}

// Cycles in steps of one visit and one unit do to a heap of all kinds of objects what cycles in one step of each kind do.
#[test]
fn small_steps_do_what_large_ones_do(rt: HostRuntime) -> Result<(), Fail> {
    let mut expected = Vec::new(rt.alloc());
    append_all(&mut expected, &TOLD)?;
    let small = cycled(rt.alloc(), b"set increment 1\nset sweep 1\n")?;
    assert_eq!(rt; small.status, Status::Done);
    assert_eq!(rt;
        told_lines(rt.alloc(), &small.out)?.as_slice(),
        expected.as_slice()
    );
    let large = cycled(rt.alloc(), b"set increment 1048576\nset sweep 65536\n")?;
    assert_eq!(rt; large.status, Status::Done);
    assert_eq!(rt;
        told_lines(rt.alloc(), &large.out)?.as_slice(),
        expected.as_slice()
    );
    // They free 5, 1, 3 and 3 objects.
    assert_eq!(rt; count_lines(&small.out, b"freed "), 12);
    assert_eq!(rt; count_lines(&large.out, b"freed "), 12);
    // In steps of one visit, marking goes on behind each of the 6, 6, 6 and 4 objects that it visits.
    assert_eq!(rt; count_lines(&small.out, b"step marking marking"), 22);
    assert_eq!(rt; count_lines(&large.out, b"step marking marking"), 0);
    assert_eq!(rt; count_lines(&large.out, b"step "), 16);
    Ok(())
}
