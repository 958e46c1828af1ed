//! Faults of the files and of the streams at each of their calls, and files that come a byte at a time.

use crate::rows::{Machine, SURE, run_over};
use replay_top::Status;
use std::test::Fail;

/// A script, which calls fail, and how `replay s` ends on it.
struct Fault {
    script: &'static [u8],
    machine: Machine,
    out: &'static [u8],
    err: &'static [u8],
    status: Status,
}

/// A reference that is seen by the write barrier alone, over two minor collections. It prints six lines.
const WRITTEN: &[u8] =
    b"type 1 fixed 1 1\nnew 0 1\nminor\nnew 1 1\nput 1 0 7\nlink 0 0 1\ndrop 1\nminor\nload 1 0 0\nget 1 0\n";

/// What it prints.
const WRITTEN_LINES: &[u8] = b"new 1 young\nminor 1 0\nnew 2 young\nminor 1 0\nloaded 2\ngot 7\n";

const FAULTS: [Fault; 12] = [
    // Each write in turn: the lines before it stand.
    Fault {
        script: WRITTEN,
        machine: Machine {
            write_fails: &[1],
            ..SURE
        },
        out: b"",
        err: b"write fault\n",
        status: Status::WriteFault,
    },
    Fault {
        script: WRITTEN,
        machine: Machine {
            write_fails: &[2],
            ..SURE
        },
        out: b"new 1 young\n",
        err: b"write fault\n",
        status: Status::WriteFault,
    },
    Fault {
        script: WRITTEN,
        machine: Machine {
            write_fails: &[3],
            ..SURE
        },
        out: b"new 1 young\nminor 1 0\n",
        err: b"write fault\n",
        status: Status::WriteFault,
    },
    Fault {
        script: WRITTEN,
        machine: Machine {
            write_fails: &[4],
            ..SURE
        },
        out: b"new 1 young\nminor 1 0\nnew 2 young\n",
        err: b"write fault\n",
        status: Status::WriteFault,
    },
    Fault {
        script: WRITTEN,
        machine: Machine {
            write_fails: &[5],
            ..SURE
        },
        out: b"new 1 young\nminor 1 0\nnew 2 young\nminor 1 0\n",
        err: b"write fault\n",
        status: Status::WriteFault,
    },
    Fault {
        script: WRITTEN,
        machine: Machine {
            write_fails: &[6],
            ..SURE
        },
        out: b"new 1 young\nminor 1 0\nnew 2 young\nminor 1 0\nloaded 2\n",
        err: b"write fault\n",
        status: Status::WriteFault,
    },
    // There is no seventh write.
    Fault {
        script: WRITTEN,
        machine: Machine {
            write_fails: &[7],
            ..SURE
        },
        out: WRITTEN_LINES,
        err: b"",
        status: Status::Done,
    },
    // The file is not begun, or not read.
    Fault {
        script: WRITTEN,
        machine: Machine {
            read_fails: &[1],
            ..SURE
        },
        out: b"",
        err: b"read fault\n",
        status: Status::ReadFault,
    },
    Fault {
        script: WRITTEN,
        machine: Machine {
            read_fails: &[2],
            ..SURE
        },
        out: b"",
        err: b"read fault\n",
        status: Status::ReadFault,
    },
    // The read at the end fails: the lines before it stand.
    Fault {
        script: WRITTEN,
        machine: Machine {
            read_fails: &[3],
            ..SURE
        },
        out: WRITTEN_LINES,
        err: b"read fault\n",
        status: Status::ReadFault,
    },
    // A line that breaks off is not done.
    Fault {
        script: b"type 1 fixed 1 0\nnew 0 1",
        machine: Machine {
            read_fails: &[3],
            ..SURE
        },
        out: b"",
        err: b"read fault\n",
        status: Status::ReadFault,
    },
    // The reason cannot be told.
    Fault {
        script: b"type 1 fixed 0 1\nnew 0 1\nload 1 0 0\nload 2 1 0\n",
        machine: Machine {
            tell_fails: &[1],
            ..SURE
        },
        out: b"new 1 young\nloaded nil\n",
        err: b"",
        status: Status::Malformed,
    },
];

/// Scripts whose bytes come one at a time: an incremental cycle in small steps, and a cache with all kinds of objects.
const BYTEWISE: [Fault; 3] = [
    Fault {
        script: WRITTEN,
        machine: Machine { most: 1, ..SURE },
        out: WRITTEN_LINES,
        err: b"",
        status: Status::Done,
    },
    Fault {
        script: b"set increment 4\ntype 1 fixed 0 1\nnew 0 1\nnew 1 1\nnew 2 1\nnew 3 1\nlink 0 0 1\nlink 1 0 2\nlink 2 0 3\ndrop 1\ndrop 2\ndrop 3\nstep\nstep\nload 1 0 0\nload 2 1 0\nload 3 2 0\nlink 0 0 3\nlink 2 0 9\ndrop 1\ndrop 2\ndrop 3\nstep\nstep\nstep\nstep\nload 1 0 0\nused\n",
        machine: Machine { most: 1, ..SURE },
        out: b"new 1 young\nnew 2 young\nnew 3 young\nnew 4 young\nminor 4 0\nstep scanning marking\nminor 0 0\nstep marking marking\nvisited 1\nvisited 2\nloaded 2\nloaded 3\nloaded 4\nminor 0 0\nstep marking marking\nvisited 3\nvisited 4\nminor 0 0\nstep marking sweeping\nminor 0 0\nstep sweeping finalizing\nminor 0 0\nstep finalizing scanning\nthreshold 16384\nloaded 4\nused 12 0\n",
        err: b"",
        status: Status::Done,
    },
    Fault {
        script: b"# a cache\ntype 1 fixed 1 2\ntype 2 weak\ntype 3 ints\ntype 4 refs\nnew 0 4 100\nnew 1 1\nput 1 0 42\nlink 0 0 1\nweak 2 2 1\nplink 1 1 plain 1\nid 1\nregister 1 0\ndrop 1\nnew 3 3 8000\nnew 3 3 8000\nnew 3 3 8000\nnew 3 3 8000\nnew 3 3 8000\nnew 3 3 8000\ndrop 3\nstep\nused\nstep\nstep\nderef 1 2\nget 1 0\nid 1\nused\n",
        machine: Machine { most: 1, ..SURE },
        out: b"new 1 young\nnew 2 young\nnew 3 young\nid 4294967304\nminor 3 0\nnew 4 old\nminor 0 0\nnew 5 old\nminor 0 0\nnew 6 old\nminor 0 0\nstep scanning marking\nnew 7 old\nminor 0 0\nstep marking marking\nvisited 1\nvisited 3\nvisited 6\nnew 8 old\nminor 0 0\nstep marking marking\nvisited 2\nvisited 8\nnew 9 old\nminor 0 0\nstep marking sweeping\nused 16117 32012\nminor 0 0\nstep sweeping finalizing\nfreed 4\nfreed 5\nfreed 7\nfreed 9\nminor 0 0\nstep finalizing scanning\nthreshold 22937\nderef 2\ngot 42\nid 4294967304\nused 16117 0\n",
        err: b"",
        status: Status::Done,
    },
];

#[test]
fn faults_end_as_told(rt: HostRuntime) -> Result<(), Fail> {
    for row in &FAULTS {
        let script = Vec::from_slice(rt.alloc(), row.script)?;
        let got = run_over(rt.alloc(), &["replay", "s"], script, row.machine)?;
        assert_eq!(rt; got.out.as_slice(), row.out);
        assert_eq!(rt; got.err.as_slice(), row.err);
        assert_eq!(rt; got.status, row.status);
    }
    Ok(())
}

#[test]
fn bytes_come_one_at_a_time(rt: HostRuntime) -> Result<(), Fail> {
    for row in &BYTEWISE {
        let script = Vec::from_slice(rt.alloc(), row.script)?;
        let got = run_over(rt.alloc(), &["replay", "s"], script, row.machine)?;
        assert_eq!(rt; got.out.as_slice(), row.out);
        assert_eq!(rt; got.err.as_slice(), row.err);
        assert_eq!(rt; got.status, row.status);
    }
    Ok(())
}
