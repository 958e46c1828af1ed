//! Every form of a line of a transcript, and texts that are none.

use line_text::{parse_output_line, print_line};
use std::test::Fail;
use text_model::{Fate, Line, LinkEnd, Phase};

// The line of each keyword with its text, and the other answers of those that have some.
const SPELLINGS: [(&[u8], Line); 39] = [
    (
        b"new 1 young",
        Line::Born {
            birth: 1,
            old: false,
        },
    ),
    (
        b"new 2 old",
        Line::Born {
            birth: 2,
            old: true,
        },
    ),
    (b"got 18446744073709551615", Line::Got { value: u64::MAX }),
    (b"loaded 0", Line::Loaded { birth: Some(0) }),
    (b"loaded nil", Line::Loaded { birth: None }),
    (b"same yes", Line::SameAs { yes: true }),
    (b"same no", Line::SameAs { yes: false }),
    (
        b"id 4294967304",
        Line::IdentIs {
            place: 4_294_967_304,
        },
    ),
    (b"hash 10", Line::HashIs { value: 10 }),
    (b"where young", Line::PlaceIs { place: None }),
    (b"where old 9", Line::PlaceIs { place: Some(9) }),
    (b"pin yes", Line::PinIs { yes: true }),
    (b"pin no", Line::PinIs { yes: false }),
    (b"deref 7", Line::Derefed { birth: Some(7) }),
    (b"deref nil", Line::Derefed { birth: None }),
    (b"next 8", Line::NextIs { birth: Some(8) }),
    (b"next nil", Line::NextIs { birth: None }),
    (b"count 0", Line::CountIs { value: 0 }),
    (
        b"fromobj 65535",
        Line::FromObjIs {
            number: Some(65_535),
        },
    ),
    (b"fromobj none", Line::FromObjIs { number: None }),
    (b"toobj 6", Line::ToObjIs { birth: Some(6) }),
    (b"toobj nil", Line::ToObjIs { birth: None }),
    (b"nextdead 5", Line::NextDeadIs { number: Some(5) }),
    (b"nextdead none", Line::NextDeadIs { number: None }),
    (b"dealloc 4", Line::Dealloc { number: 4 }),
    (b"used 30 2", Line::UsedIs { kept: 30, husks: 2 }),
    (
        b"minor 3 1",
        Line::MinorDone {
            settled: 3,
            vanished: 1,
        },
    ),
    (b"cleared 11", Line::Cleared { birth: 11 }),
    (b"destroyed 12", Line::Destroyed { birth: 12 }),
    (
        b"unlinked 1 4294967295",
        Line::LinkCut {
            end: LinkEnd {
                number: 1,
                own: 4_294_967_295,
                fate: Fate::Unlinked,
            },
        },
    ),
    (
        b"pending 2",
        Line::LinkCut {
            end: LinkEnd {
                number: 2,
                own: 0,
                fate: Fate::Pending,
            },
        },
    ),
    (
        b"released 3",
        Line::LinkCut {
            end: LinkEnd {
                number: 3,
                own: 0,
                fate: Fate::Released,
            },
        },
    ),
    (
        b"step scanning marking",
        Line::Stepped {
            from: Phase::Scanning,
            to: Phase::Marking,
        },
    ),
    (
        b"step sweeping finalizing",
        Line::Stepped {
            from: Phase::Sweeping,
            to: Phase::Finalizing,
        },
    ),
    (b"visited 13", Line::Visited { birth: 13 }),
    (b"kept 14", Line::Kept { birth: 14 }),
    (b"freed 3", Line::Freed { birth: 3 }),
    (
        b"queued 15 1",
        Line::Queued {
            birth: 15,
            queue: 1,
        },
    ),
    (b"threshold 16384", Line::ThresholdIs { words: 16_384 }),
];

#[test]
fn each_line_is_read_and_printed(rt: HostRuntime) -> Result<(), Fail> {
    for (text, line) in SPELLINGS {
        assert_eq!(rt; parse_output_line(text), Some(line));
        let read = parse_output_line(text).ok_or("a line")?;
        let mut out = Vec::new(rt.alloc());
        print_line(&read, &mut out)?;
        assert_eq!(rt; out.pop(), Some(b'\n'));
        assert_eq!(rt; out.as_slice(), text);
    }
    Ok(())
}

#[test]
fn other_texts_are_no_lines(rt: HostRuntime) {
    let others: [&[u8]; 12] = [
        b"",
        b"freed",
        b"freed ",
        b"freed 03",
        b"freed +3",
        b"freed  3",
        b"freed 3 ",
        b"freed 18446744073709551616",
        b"dealloc 65536",
        b"unlinked 1 4294967296",
        b"used 1 2 3",
        b"where old young",
    ];
    for text in others {
        assert_eq!(rt; parse_output_line(text), None);
    }
}
