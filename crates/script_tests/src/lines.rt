//! Every form of a line of a script, lines that have none, and a reader to its end.

use heap_io::{Files, SureFiles};
use script_text::{BadLine, Command, Item, LineReader, parse_line, print_command};
use std::test::Fail;
use type_table::{Shape, TypeInfo};

const COMMANDS: [(&str, Command); 32] = [
    (
        "new 0 1",
        Command::NewFixed {
            root: 0,
            type_id: 1,
        },
    ),
    (
        "new 65535 1 16777216",
        Command::NewArray {
            root: 65535,
            type_id: 1,
            len: 16_777_216,
        },
    ),
    (
        "weak 2 65535 1",
        Command::NewWeak {
            root: 2,
            type_id: 65535,
            target: 1,
        },
    ),
    (
        "put 0 1 18446744073709551615",
        Command::Put {
            root: 0,
            item: 1,
            value: u64::MAX,
        },
    ),
    ("get 3 2", Command::Get { root: 3, item: 2 }),
    (
        "link 0 1 2",
        Command::Link {
            root: 0,
            item: 1,
            from: 2,
        },
    ),
    (
        "load 0 1 2",
        Command::Load {
            to: 0,
            root: 1,
            item: 2,
        },
    ),
    (
        "copyrefs 0 1 2 3 4",
        Command::CopyRefs {
            root: 0,
            item: 1,
            from: 2,
            from_item: 3,
            count: 4,
        },
    ),
    ("move 1 2", Command::MoveRoot { to: 1, from: 2 }),
    ("drop 9", Command::DropRoot { root: 9 }),
    ("same 1 2", Command::Same { a: 1, b: 2 }),
    ("id 10", Command::Ident { root: 10 }),
    ("hash 0", Command::Hash { root: 0 }),
    ("where 0", Command::Place { root: 0 }),
    ("pin 1", Command::Pin { root: 1 }),
    ("unpin 1", Command::Unpin { root: 1 }),
    ("deref 1 2", Command::Deref { to: 1, root: 2 }),
    ("register 1 3", Command::Register { root: 1, queue: 3 }),
    ("next 1 3", Command::NextFinal { to: 1, queue: 3 }),
    (
        "plink 1 0 plain 7",
        Command::MakeLink {
            p: true,
            number: 1,
            root: 0,
            light: false,
            own: 7,
        },
    ),
    (
        "plink 1 0 light 0",
        Command::MakeLink {
            p: true,
            number: 1,
            root: 0,
            light: true,
            own: 0,
        },
    ),
    (
        "olink 1 0 plain 4294967295",
        Command::MakeLink {
            p: false,
            number: 1,
            root: 0,
            light: false,
            own: 4_294_967_295,
        },
    ),
    ("inc 1", Command::Inc { number: 1 }),
    ("dec 1", Command::Dec { number: 1 }),
    ("count 1", Command::Count { number: 1 }),
    ("fromobj 2", Command::FromObj { root: 2 }),
    ("toobj 2 1", Command::ToObj { to: 2, number: 1 }),
    ("nextdead", Command::NextDead),
    ("minor", Command::Minor),
    ("step", Command::Step),
    ("collect", Command::Collect),
    ("used", Command::Used),
];

/// Each command line is read as its command, which is written as that line.
#[test]
fn commands_both_ways(rt: HostRuntime) {
    let mut out = Vec::new(rt.alloc());
    for (line, command) in COMMANDS {
        let read = parse_line(line.as_bytes());
        assert_eq!(rt; read, Ok(Item::Command(command)), "{line}");
        if let Ok(Item::Command(command)) = read {
            assert!(rt; print_command(&command, &mut out).is_ok());
            assert!(rt; out.pop() == Some(b'\n'), "{line}");
            assert!(rt; out.as_slice() == line.as_bytes(), "{line}");
            out.clear();
        }
    }
}

const SYNTAX: Result<Item, BadLine> = Err(BadLine::Syntax);

const RANGE: Result<Item, BadLine> = Err(BadLine::Range);

const OTHERS: [(&[u8], Result<Item, BadLine>); 45] = [
    (b"", Ok(Item::Blank)),
    (b"#", Ok(Item::Blank)),
    (b"#put  0\r", Ok(Item::Blank)),
    (b" ", SYNTAX),
    (b" #", SYNTAX),
    (
        b"set nursery 4096",
        Ok(Item::Setting {
            name: 0,
            value: 4096,
        }),
    ),
    (b"set minimum 0", Ok(Item::Setting { name: 4, value: 0 })),
    (
        b"set queues 18446744073709551615",
        Ok(Item::Setting {
            name: 12,
            value: u64::MAX,
        }),
    ),
    (b"set", SYNTAX),
    (b"set nursery", SYNTAX),
    (b"set foo 1", SYNTAX),
    (b"set card 1 2", SYNTAX),
    (
        b"type 1 fixed 2 65535",
        Ok(Item::TypeDef {
            id: 1,
            info: TypeInfo {
                shape: Shape::Fixed {
                    ints: 2,
                    refs: 65535,
                },
                destructor: false,
            },
        }),
    ),
    (
        b"type 65535 ints destructor",
        Ok(Item::TypeDef {
            id: 65535,
            info: TypeInfo {
                shape: Shape::IntArray,
                destructor: true,
            },
        }),
    ),
    (
        b"type 2 refs",
        Ok(Item::TypeDef {
            id: 2,
            info: TypeInfo {
                shape: Shape::RefArray,
                destructor: false,
            },
        }),
    ),
    (
        b"type 1 weak",
        Ok(Item::TypeDef {
            id: 1,
            info: TypeInfo {
                shape: Shape::Weak,
                destructor: false,
            },
        }),
    ),
    (b"type 1 weak destructor", SYNTAX),
    (b"type 1", SYNTAX),
    (b"type 1 fixed 65536 0", RANGE),
    (b"type 65536 ints destructors", SYNTAX),
    (b"put 0 0 18446744073709551616", SYNTAX),
    (b"put 0 0 99999999999999999999999", SYNTAX),
    (b"put 0 0 -1", SYNTAX),
    (b"put 0 0 +1", SYNTAX),
    (b"put 00 0 1", SYNTAX),
    (b"put  0 0 1", SYNTAX),
    (b"put 0 0 1 ", SYNTAX),
    (b"put 0 0 1 1", SYNTAX),
    (b"put 0 0", SYNTAX),
    (b"put 0 0 1\r", SYNTAX),
    (b"put 0 0 \xb2", SYNTAX),
    (b"put 0\t0 1", SYNTAX),
    (b"Put 0 0 1", SYNTAX),
    (b"put", SYNTAX),
    (b"put 65536 0 x", SYNTAX),
    (b"put 65536 0 1", RANGE),
    (b"new 0 1 16777217", RANGE),
    (b"new 65536 1", RANGE),
    (b"new 0", SYNTAX),
    (b"used 1", SYNTAX),
    (b"plink 1 0 plain 4294967296", RANGE),
    (b"plink 1 0 heavy 0", SYNTAX),
    (b"plink 1 0 light", SYNTAX),
    (b"toobj 0 65536", RANGE),
    (b"fromobj 0 1", SYNTAX),
];

/// Blank lines, settings, types, and lines that have none of the forms or a number above the greatest of its place.
#[test]
fn other_lines(rt: HostRuntime) {
    for (line, want) in OTHERS {
        assert!(rt; parse_line(line) == want);
    }
}

#[test]
fn reads_lines_and_a_last_one_without_lf(rt: HostRuntime) -> Result<(), Fail> {
    let mut files = SureFiles::new(b"ab\n\ncd".to_vec(rt.alloc())?);
    let mut reader = LineReader::new(rt.alloc())?;
    let mut line = [0; 200];
    files.begin_file(b"any")?;
    assert_eq!(rt; reader.next(&mut files, &mut line), Ok(Some(2)));
    assert_eq!(rt; &line[..2], b"ab".as_slice());
    assert_eq!(rt; reader.next(&mut files, &mut line), Ok(Some(0)));
    assert_eq!(rt; reader.next(&mut files, &mut line), Ok(Some(2)));
    assert_eq!(rt; &line[..2], b"cd".as_slice());
    assert_eq!(rt; reader.next(&mut files, &mut line), Ok(None));
    Ok(())
}
