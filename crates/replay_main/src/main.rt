//! The program: it replays a script over a heap and prints the transcript.
#![tactic(auto)]

use heap_core::Heap;
use heap_io::{DiskFiles, StdSink};
use replay_top::{Status, run};
use std::alloc::AllocError;
use std::env;
use std::env::Env;
use std::io::{ErrorKind, Write};
use std::process::ExitCode;

fn main(rt: HostRuntime) -> ExitCode {
    let Ok(words) = words(&rt) else {
        let _ = rt.stderr().write_all(b"out of memory\n");
        return ExitCode::from(Status::OutOfMemory as u8);
    };
    let alloc = rt.alloc();
    let mut out = StdSink::new(rt.stdout());
    let mut err = StdSink::new(rt.stderr());
    let mut files = DiskFiles::new(rt);
    let mut heap = Heap::closed();
    let status = run(alloc, &words, &mut files, &mut out, &mut err, &mut heap);
    ExitCode::from(status as u8)
}

/// The words behind the program's name. There are none where one of them is not UTF-8 or cannot be had, so that
/// the run then tells its usage. The error is out of memory.
fn words<R: Env + AllocGlobal>(rt: &R) -> Result<Vec<String>, AllocError> {
    let mut words = Vec::new(rt.alloc());
    match env::args(rt) {
        Ok(all) => {
            for word in all.skip(1) {
                words.push(word)?;
            }
        }
        Err(error) if error.kind() == ErrorKind::OutOfMemory => return Err(AllocError),
        Err(_) => {}
    }
    Ok(words)
}
