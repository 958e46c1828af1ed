//! Scripts that were worked out by hand from the rule of the sequence.

use script_gen::{Generator, generate};
use std::test::Fail;
use text_model::{Command, Item};

/// The settings and types, and the commands that fill the slots.
const FRONT: &[u8] =
    b"set roots 16\ntype 1 fixed 1 2\ntype 2 refs\ntype 3 weak\ntype 4 ints\nnew 0 1\nnew 1 1\nnew 2 1\nnew 3 1\nnew 4 1\nnew 5 1\nnew 6 1\nnew 7 1\nnew 8 2 8\nnew 9 2 8\nnew 10 2 8\nnew 11 2 8\nnew 12 4 0\nnew 13 4 0\nweak 14 3 0\n";

/// A command of each kind is among these.
const DRAWN: &[u8] =
    b"new 0 1\nnew 6 1\nnew 6 1\nderef 15 14\nnew 0 1\nload 15 2 1\nlink 10 5 5\nnew 5 1\nlink 2 1 4\nget 3 0\nhash 1\nnew 12 4 300\nweak 14 3 3\nload 15 11 2\nput 4 0 1286992836\nnew 10 2 8\nlink 7 0 5\nnew 2 1\ncollect\n";

#[test]
fn one_command_behind_7(rt: HostRuntime) -> Result<(), Fail> {
    let mut out = Vec::new(rt.alloc());
    generate(7, 1, &mut out)?;
    let (front, rest) = out
        .as_slice()
        .split_at_checked(FRONT.len())
        .ok_or("too short")?;
    assert_eq!(rt; front, FRONT);
    assert_eq!(rt; rest, b"deref 15 14\ncollect\n".as_slice());
    Ok(())
}

#[test]
fn every_kind_behind_14572(rt: HostRuntime) -> Result<(), Fail> {
    let mut out = Vec::new(rt.alloc());
    generate(14572, 18, &mut out)?;
    let (front, rest) = out
        .as_slice()
        .split_at_checked(FRONT.len())
        .ok_or("too short")?;
    assert_eq!(rt; front, FRONT);
    assert_eq!(rt; rest, DRAWN);
    Ok(())
}

#[test]
fn items_behind_7(rt: HostRuntime) {
    let mut generator = Generator::new(7, 1);
    assert_eq!(rt;
        generator.next(),
        Some(Item::Setting {
            name: 11,
            value: 16
        })
    );
    for _ in 0..19 {
        let _item = generator.next();
    }
    assert_eq!(rt;
        generator.next(),
        Some(Item::Command(Command::Deref { to: 15, root: 14 }))
    );
    assert_eq!(rt; generator.next(), Some(Item::Command(Command::Collect)));
    assert_eq!(rt; generator.next(), None);
}
