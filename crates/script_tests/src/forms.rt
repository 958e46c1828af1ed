//! The worked example both ways, and an empty script.

use heap_io::{MemFiles, MemSink, NamedFile};
use script_convert::convert;
use std::alloc::Global;
use std::test::Fail;

const BINARY: [u8; 21] =
    *b"PGH2\x02\x01\x01\x00\x00\x10\x00\x01\x13\x00\x00\xac\x02\x14\x00\x00\x00";

const TEXT: &str = "type 1 fixed 1 0\nnew 0 1\nput 0 0 300\nget 0 0\n";

/// The script in the other form, if it is converted.
fn other_form(alloc: Global, script: &[u8]) -> Result<Option<MemSink>, Fail> {
    let mut files = Vec::new(alloc);
    files.push(NamedFile {
        name: b"s".to_vec(alloc)?,
        bytes: script.to_vec(alloc)?,
    })?;
    let mut files = MemFiles::new(files, Vec::new(alloc));
    let mut out = MemSink::new(alloc, 100, Vec::new(alloc))?;
    match convert(alloc, b"s", &mut files, &mut out) {
        Ok(()) => Ok(Some(out)),
        Err(_) => Ok(None),
    }
}

#[test]
fn worked_example_both_ways(rt: HostRuntime) -> Result<(), Fail> {
    let binary = other_form(rt.alloc(), TEXT.as_bytes())?.expect(&rt, "a binary script");
    assert!(rt; binary.written() == BINARY.as_slice());
    let text = other_form(rt.alloc(), &BINARY)?.expect(&rt, "lines");
    assert!(rt; text.written() == TEXT.as_bytes());
    Ok(())
}

#[test]
fn blank_lines_have_no_record(rt: HostRuntime) -> Result<(), Fail> {
    let empty = other_form(rt.alloc(), b"")?.expect(&rt, "a binary script");
    assert!(rt; empty.written() == b"PGH2\x00".as_slice());
    let blank = other_form(rt.alloc(), b"# nothing\n\n")?.expect(&rt, "a binary script");
    assert!(rt; blank.written() == b"PGH2\x00".as_slice());
    assert!(rt; other_form(rt.alloc(), b"PGH2\x00\x00")?.is_none());
    Ok(())
}
