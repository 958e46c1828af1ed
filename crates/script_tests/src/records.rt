//! The worked example both ways, and scripts that are refused.

use heap_io::{Files, SureFiles};
use script_binary::{BinEnd, BinReader, encode_item};
use script_text::{Bytes, print_item};
use std::alloc::Global;
use std::test::Fail;

const SCRIPT: [u8; 21] =
    *b"PGH2\x02\x01\x01\x00\x00\x10\x00\x01\x13\x00\x00\xac\x02\x14\x00\x00\x00";

const TEXT: &str = "type 1 fixed 1 0\nnew 0 1\nput 0 0 300\nget 0 0\n";

/// What a script says: its items as records and as lines, the number of the unit where it ends, and why it ends there if it is
/// refused.
#[derive(Drop)]
struct Said {
    records: Vec<u8>,
    text: Vec<u8>,
    unit: u64,
    end: Option<BinEnd>,
}

/// Reads a binary script.
fn read(alloc: Global, script: &[u8]) -> Result<Said, Fail> {
    let mut files = SureFiles::new(script.to_vec(alloc)?);
    files.begin_file(b"any")?;
    let mut bytes = Bytes::new(alloc)?;
    let _binary = bytes.is_binary(&mut files)?;
    let mut reader = BinReader::over(bytes);
    let mut records = Vec::new(alloc);
    let mut text = Vec::new(alloc);
    let mut end = None;
    'records: for _ in 0..script.len() {
        match reader.next(&mut files) {
            Ok(Some(item)) => {
                encode_item(&item, &mut records)?;
                print_item(&item, &mut text)?;
            }
            Ok(None) => break,
            Err(why) => {
                end = Some(why);
                break;
            }
        }
    }
    Ok(Said {
        records,
        text,
        unit: reader.unit(),
        end,
    })
}

#[test]
fn worked_example_both_ways(rt: HostRuntime) -> Result<(), Fail> {
    let said = read(rt.alloc(), &SCRIPT)?;
    assert!(rt; said.records.as_slice() == &SCRIPT[4..20]);
    assert!(rt; said.text.as_slice() == TEXT.as_bytes());
    assert_eq!(rt; said.end, None);
    Ok(())
}

#[test]
fn refused_scripts(rt: HostRuntime) -> Result<(), Fail> {
    let cases: [(&[u8], u64, BinEnd); 6] = [
        // no end record
        (&SCRIPT[..20], 5, BinEnd::Syntax),
        // 300 in a longer spelling
        (
            b"PGH2\x10\x00\x01\x13\x00\x00\xac\x82\x00",
            2,
            BinEnd::Syntax,
        ),
        // a byte behind the end record
        (b"PGH2\x00\x00", 2, BinEnd::Syntax),
        // no such tag
        (b"PGH2\x2e", 1, BinEnd::Syntax),
        // a truth value of 2
        (b"PGH2\x03\x01\x02\x00", 1, BinEnd::Syntax),
        // a slot of 65,536
        (b"PGH2\x1b\x80\x80\x04\x00", 1, BinEnd::Range),
    ];
    for (script, unit, end) in cases {
        let said = read(rt.alloc(), script)?;
        assert_eq!(rt; said.unit, unit);
        assert_eq!(rt; said.end, Some(end));
    }
    Ok(())
}
