//! The files and sinks in memory at calls that fail, and those of the machine.
use heap_io::{DiskFiles, Failed, Files, MemFiles, MemSink, NamedFile, Sink, StdSink};
use std::test::Fail;
use std::time::UNIX_EPOCH;
use std::{env, fs};

#[test]
fn mem_sink_fails_at_its_first_call(rt: HostRuntime) -> Result<(), Fail> {
    let fails = [1].to_vec(rt.alloc())?;
    let mut sink = MemSink::new(rt.alloc(), 2, fails)?;
    assert_eq!(rt; sink.write(b"x"), Err(Failed));
    assert_eq!(rt; sink.faults(), 1);
    assert_eq!(rt; sink.write(b"x"), Ok(1));
    assert_eq!(rt; sink.written(), b"x".as_slice());
    Ok(())
}

#[test]
fn mem_files_read_the_file_of_a_name(rt: HostRuntime) -> Result<(), Fail> {
    let mut files = Vec::new(rt.alloc());
    files.push(NamedFile {
        name: b"a".to_vec(rt.alloc())?,
        bytes: b"1".to_vec(rt.alloc())?,
    })?;
    files.push(NamedFile {
        name: b"b".to_vec(rt.alloc())?,
        bytes: b"23".to_vec(rt.alloc())?,
    })?;
    let mut files = MemFiles::new(files, [2].to_vec(rt.alloc())?);
    let mut buf = [0; 4];
    assert_eq!(rt; files.begin_file(b"b"), Ok(()));
    assert_eq!(rt; files.read(&mut buf), Err(Failed));
    assert_eq!(rt; files.read(&mut buf), Ok(2));
    assert_eq!(rt; &buf[..2], b"23".as_slice());
    Ok(())
}

#[test]
fn disk_files_read_a_file(rt: HostRuntime) -> Result<(), Fail> {
    let dir = env::temp_dir(&rt)?;
    let stamp = UNIX_EPOCH.elapsed(&rt)?.as_nanos();
    let path = format!(in rt.alloc(); "{}/heap_io_{stamp}", dir.as_str())?;
    let mut files = DiskFiles::new(rt.clone()?);
    assert_eq!(rt; files.begin_file(path.as_bytes()), Err(Failed));
    assert_eq!(rt; files.faults(), 1);
    fs::write(&rt, path.as_str(), "get 0 0")?;
    let mut buf = [0; 64];
    assert_eq!(rt; files.begin_file(path.as_bytes()), Ok(()));
    assert_eq!(rt; files.read(&mut buf), Ok(7));
    assert_eq!(rt; &buf[..7], b"get 0 0".as_slice());
    assert_eq!(rt; files.read(&mut buf), Ok(0));
    assert_eq!(rt; files.faults(), 1);
    fs::remove_file(&rt, path.as_str())?;
    Ok(())
}

#[test]
fn std_sink_writes_what_it_is_given(rt: HostRuntime) -> Result<(), Fail> {
    let mut bytes = [0; 3];
    let mut sink = StdSink::new(bytes.as_mut_slice());
    assert_eq!(rt; sink.write(b"ab"), Ok(2));
    assert_eq!(rt; sink.write(b"cd"), Ok(1));
    // A write that takes no byte is a fault.
    assert_eq!(rt; sink.write(b"d"), Err(Failed));
    assert_eq!(rt; sink.faults(), 1);
    assert_eq!(rt; &bytes, b"abc");
    Ok(())
}
