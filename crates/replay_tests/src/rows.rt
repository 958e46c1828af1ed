//! What no clause says: that runs come to their ends with ample memory, and the texts that they write.
ghost use Rattle.std.specs.Prelude.{◌≡◌};
ghost use Rattle.heap_core.specs.Heap.{closed_heap};

use heap_core::Heap;
use heap_io::{MemFiles, MemSink, NamedFile};
use replay_top::{Status, run};
use std::alloc::{AllocError, Global};
use std::test::Fail;

/// A script of the file `s`, the calls of the files and of the sink that fail, and how `replay s` ends on it.
struct Row {
    script: &'static [u8],
    read_fails: &'static [u64],
    write_fails: &'static [u64],
    out: &'static [u8],
    err: &'static [u8],
    status: Status,
}

/// What a run wrote and answered.
#[derive(Drop)]
pub(crate) struct Outcome {
    pub(crate) status: Status,
    pub(crate) out: Vec<u8>,
    pub(crate) err: Vec<u8>,
}

/// Which calls of the files and of the two streams fail, counted from 1, how many bytes a read gives at most, and how many bytes the
/// output takes.
#[derive(Clone, Copy)]
pub(crate) struct Machine {
    pub(crate) read_fails: &'static [u64],
    pub(crate) write_fails: &'static [u64],
    pub(crate) tell_fails: &'static [u64],
    pub(crate) most: usize,
    pub(crate) room: usize,
}

/// Nothing fails.
pub(crate) const SURE: Machine = Machine {
    read_fails: &[],
    write_fails: &[],
    tell_fails: &[],
    most: 4096,
    room: 10_000,
};

/// The one file `s` with these bytes.
fn files_of(alloc: Global, script: Vec<u8>, machine: Machine) -> Result<MemFiles, AllocError> {
    let mut named = Vec::new(alloc);
    named.push(NamedFile {
        name: Vec::from_slice(alloc, b"s")?,
        bytes: script,
    })?;
    let mut files = MemFiles::new(named, Vec::from_slice(alloc, machine.read_fails)?);
    if machine.most > 0 {
        files.set_most(machine.most);
    }
    Ok(files)
}

/// Words as texts of their own.
fn texts_of(alloc: Global, words: &[&str]) -> Result<Vec<String>, AllocError> {
    let mut texts = Vec::new(alloc);
    for word in words {
        texts.push(String::from_str(alloc, word)?)?;
    }
    Ok(texts)
}

/// Runs the program for words, where these calls of the files and of the sink fail. The script is the one file, by the
/// name `s`.
fn answered(
    alloc: Global,
    words: &[&str],
    script: &[u8],
    read_fails: &'static [u64],
    write_fails: &'static [u64],
) -> Result<Outcome, AllocError> {
    let machine = Machine {
        read_fails,
        write_fails,
        ..SURE
    };
    run_over(alloc, words, Vec::from_slice(alloc, script)?, machine)
}

/// Runs the program for words over such a machine and a heap of its own. The script is the one file, by the name `s`.
pub(crate) fn run_over(
    alloc: Global,
    words: &[&str],
    script: Vec<u8>,
    machine: Machine,
) -> Result<Outcome, AllocError> {
    let mut heap = Heap::closed();
    run_heap(alloc, words, script, machine, &mut heap)
}

/// Replays a script over a heap, where nothing fails. The heap stays as the run leaves it.
pub(crate) fn run_on(alloc: Global, script: Vec<u8>, heap: &mut Heap) -> Result<Outcome, AllocError>
    requires { heap.old ≡ closed_heap }
{
    run_heap(alloc, &["replay", "s"], script, SURE, heap)
}

/// Runs the program for words over such a machine and a heap.
fn run_heap(
    alloc: Global,
    words: &[&str],
    script: Vec<u8>,
    machine: Machine,
    heap: &mut Heap,
) -> Result<Outcome, AllocError>
    requires { heap.old ≡ closed_heap }
{
    let texts = texts_of(alloc, words)?;
    let mut files = files_of(alloc, script, machine)?;
    let mut out = MemSink::new(
        alloc,
        machine.room,
        Vec::from_slice(alloc, machine.write_fails)?,
    )?;
    let mut err = MemSink::new(alloc, 1000, Vec::from_slice(alloc, machine.tell_fails)?)?;
    let status = run(alloc, &texts, &mut files, &mut out, &mut err, heap);
    Ok(Outcome {
        status,
        out: Vec::from_slice(alloc, out.written())?,
        err: Vec::from_slice(alloc, err.written())?,
    })
}

const ROWS: [Row; 42] = [
    Row {
        script: b"",
        read_fails: &[],
        write_fails: &[],
        out: b"",
        err: b"",
        status: Status::Done,
    },
    Row {
        script: b"type 1 fixed 1 0\nnew 0 1\nput 0 0 18446744073709551615\nget 0 0\n",
        read_fails: &[],
        write_fails: &[],
        out: b"new 1 young\ngot 18446744073709551615\n",
        err: b"",
        status: Status::Done,
    },
    Row {
        script: b"type 1 fixed 0 1\nnew 0 1\nload 1 0 0\nload 2 1 0\n",
        read_fails: &[],
        write_fails: &[],
        out: b"new 1 young\nloaded nil\n",
        err: b"malformed: line 4: NilRoot\n",
        status: Status::Malformed,
    },
    Row {
        script: b"type 1 fixed 1 0\nnew 0 1",
        read_fails: &[],
        write_fails: &[],
        out: b"new 1 young\n",
        err: b"",
        status: Status::Done,
    },
    Row {
        script: b"type 1 fixed 1 0\nnew 0 1\nget 0 00\n",
        read_fails: &[],
        write_fails: &[],
        out: b"new 1 young\n",
        err: b"malformed: line 3: Syntax\n",
        status: Status::Malformed,
    },
    Row {
        script: b"new 0 1\n",
        read_fails: &[],
        write_fails: &[],
        out: b"",
        err: b"malformed: line 1: NoType\n",
        status: Status::Malformed,
    },
    Row {
        script: b"type 1 fixed 0 0\nnew 256 1\n",
        read_fails: &[],
        write_fails: &[],
        out: b"",
        err: b"malformed: line 2: NoRoot\n",
        status: Status::Malformed,
    },
    Row {
        script: b"type 1 fixed 0 0\nnew 0 1 3\n",
        read_fails: &[],
        write_fails: &[],
        out: b"",
        err: b"malformed: line 2: WrongShape\n",
        status: Status::Malformed,
    },
    Row {
        script: b"type 1 ints\nnew 0 1 2\nput 0 2 1\n",
        read_fails: &[],
        write_fails: &[],
        out: b"new 1 young\n",
        err: b"malformed: line 3: NoItem\n",
        status: Status::Malformed,
    },
    Row {
        script: b"type 1 ints\nnew 0 1 16777217\n",
        read_fails: &[],
        write_fails: &[],
        out: b"",
        err: b"malformed: line 2: Range\n",
        status: Status::Malformed,
    },
    Row {
        script: b"type 1 fixed 1 0\nnew 0 1\nput 0 0 18446744073709551616\n",
        read_fails: &[],
        write_fails: &[],
        out: b"new 1 young\n",
        err: b"malformed: line 3: Syntax\n",
        status: Status::Malformed,
    },
    Row {
        script: b"set pins 1\nset pins 1\n",
        read_fails: &[],
        write_fails: &[],
        out: b"",
        err: b"malformed: line 2: SetTwice\n",
        status: Status::Malformed,
    },
    Row {
        script: b"set pins 1025\n",
        read_fails: &[],
        write_fails: &[],
        out: b"",
        err: b"malformed: line 1: SetRange\n",
        status: Status::Malformed,
    },
    Row {
        script: b"type 1 ints\ntype 1 refs\n",
        read_fails: &[],
        write_fails: &[],
        out: b"",
        err: b"malformed: line 2: TypeTwice\n",
        status: Status::Malformed,
    },
    Row {
        script: b"drop  0\n",
        read_fails: &[],
        write_fails: &[],
        out: b"",
        err: b"malformed: line 1: Syntax\n",
        status: Status::Malformed,
    },
    Row {
        script: b"type 1 fixed 1 0\nnew 0 1\nput 0 0 300\nget 0 0\n",
        read_fails: &[],
        write_fails: &[],
        out: b"new 1 young\ngot 300\n",
        err: b"",
        status: Status::Done,
    },
    Row {
        script: b"type 1 refs\ntype 2 fixed 1 1\nnew 0 1 3\nnew 1 2\nput 1 0 7\nlink 0 2 1\ndrop 1\nload 2 0 2\nget 2 0\nlink 0 2 9\nload 3 0 2\nsame 3 4\n",
        read_fails: &[],
        write_fails: &[],
        out: b"new 1 young\nnew 2 young\nloaded 2\ngot 7\nloaded nil\nsame yes\n",
        err: b"",
        status: Status::Done,
    },
    Row {
        script: b"set roots 2\ntype 3 ints\nnew 0 3 2\nmove 1 0\nput 1 1 5\nget 0 1\nsame 0 1\ndrop 0\nsame 0 1\nget 0 1\n",
        read_fails: &[],
        write_fails: &[],
        out: b"new 1 young\ngot 5\nsame yes\nsame no\n",
        err: b"malformed: line 10: NilRoot\n",
        status: Status::Malformed,
    },
    Row {
        script: b"set young 9\ntype 1 ints\nnew 0 1 6\nnew 0 1 7\n",
        read_fails: &[],
        write_fails: &[],
        out: b"new 1 young\nnew 2 old\n",
        err: b"",
        status: Status::Done,
    },
    Row {
        script: b"type 1 ints\nnew 0 1 0\ntype 2 refs\n",
        read_fails: &[],
        write_fails: &[],
        out: b"new 1 young\n",
        err: b"malformed: line 3: Late\n",
        status: Status::Malformed,
    },
    Row {
        script: b"copyrefs 0 0 300 0 0\n",
        read_fails: &[],
        write_fails: &[],
        out: b"",
        err: b"malformed: line 1: NoRoot\n",
        status: Status::Malformed,
    },
    Row {
        script: b"type 1 refs\nnew 0 1 3\nnew 1 1 0\nlink 0 0 1\ncopyrefs 0 1 0 0 2\nload 2 0 1\nload 3 0 2\n",
        read_fails: &[],
        write_fails: &[],
        out: b"new 1 young\nnew 2 young\nloaded 2\nloaded nil\n",
        err: b"",
        status: Status::Done,
    },
    Row {
        script: b"type 1 fixed 1 0\nnew 0 1\nid 0\nhash 0\nid 0\nwhere 0\n",
        read_fails: &[],
        write_fails: &[],
        out: b"new 1 young\nid 4294967304\nhash 4563402760\nid 4294967304\nwhere young\n",
        err: b"",
        status: Status::Done,
    },
    Row {
        script: b"type 1 fixed 0 0\ntype 2 weak\nnew 0 1\nweak 1 2 0\ndrop 0\nderef 2 1\nderef 3 2\n",
        read_fails: &[],
        write_fails: &[],
        out: b"new 1 young\nnew 2 young\nderef 1\n",
        err: b"malformed: line 7: WrongShape\n",
        status: Status::Malformed,
    },
    Row {
        script: b"type 1 fixed 0 0\nnew 0 1\nregister 0 0\nnext 1 0\nregister 0 1\n",
        read_fails: &[],
        write_fails: &[],
        out: b"new 1 young\nnext nil\n",
        err: b"malformed: line 5: Registered\n",
        status: Status::Malformed,
    },
    Row {
        script: b"copyrefs 0 0 65536 0 0\n",
        read_fails: &[],
        write_fails: &[],
        out: b"",
        err: b"malformed: line 1: Range\n",
        status: Status::Malformed,
    },
    Row {
        script: b"used\nset pins 1\n",
        read_fails: &[],
        write_fails: &[],
        out: b"used 0 0\n",
        err: b"malformed: line 2: Late\n",
        status: Status::Malformed,
    },
    Row {
        script: b"type 1 ints\nnew 0 1 1100\nused\n",
        read_fails: &[],
        write_fails: &[],
        out: b"new 1 old\nused 1103 0\n",
        err: b"",
        status: Status::Done,
    },
    Row {
        script: b"type 1 ints\nnew 0 1 1021\nnew 1 1 1022\nused\n",
        read_fails: &[],
        write_fails: &[],
        out: b"new 1 young\nnew 2 old\nused 2049 0\n",
        err: b"",
        status: Status::Done,
    },
    Row {
        script: b"set young 8\ntype 1 refs\ntype 2 fixed 1 1\nnew 0 1 7\nnew 1 2\nput 1 0 7\nlink 0 6 1\nlink 1 0 0\ndrop 1\nload 2 0 6\nget 2 0\nload 3 2 0\nsame 3 0\nload 4 3 0\ndrop 0\ndrop 3\nload 5 2 0\nload 6 5 6\nused\n",
        read_fails: &[],
        write_fails: &[],
        out: b"new 1 old\nnew 2 young\nloaded 2\ngot 7\nloaded 1\nsame yes\nloaded nil\nloaded 1\nloaded 2\nused 14 0\n",
        err: b"",
        status: Status::Done,
    },
    Row {
        script: b"set young 8\ntype 1 fixed 7 1\ntype 2 ints\nnew 0 1\nput 0 6 11\nnew 1 2 62\nput 1 0 13\nput 1 61 18446744073709551615\nnew 2 1\nlink 2 0 1\nlink 0 0 2\nload 3 0 0\nload 4 3 0\nget 0 6\nget 3 6\nget 4 0\nget 4 1\nget 4 61\nused\n",
        read_fails: &[],
        write_fails: &[],
        out: b"new 1 old\nnew 2 old\nnew 3 old\nloaded 3\nloaded 2\ngot 11\ngot 0\ngot 13\ngot 0\ngot 18446744073709551615\nused 85 0\n",
        err: b"",
        status: Status::Done,
    },
    Row {
        script: b"set young 8\nset page 64\nset arena 1\nset small 4096\ntype 1 ints\nnew 0 1 53\nnew 1 1 54\nnew 2 1 53\nput 0 52 1\nput 1 53 2\nget 0 52\nget 1 53\nget 2 52\nused\n",
        read_fails: &[],
        write_fails: &[],
        out: b"new 1 old\nnew 2 old\nnew 3 old\ngot 1\ngot 2\ngot 0\nused 169 0\n",
        err: b"",
        status: Status::Done,
    },
    Row {
        script: b"type 1 fixed 1 0\nnew 0 1\nwhere 0\npin 0\npin 0\nunpin 0\nunpin 0\nunpin 0\n",
        read_fails: &[],
        write_fails: &[],
        out: b"new 1 young\nwhere young\npin yes\npin yes\n",
        err: b"malformed: line 8: NotPinned\n",
        status: Status::Malformed,
    },
    Row {
        script: b"type 1 fixed 0 0\nnew 0 1\nregister 0 4\n",
        read_fails: &[],
        write_fails: &[],
        out: b"new 1 young\n",
        err: b"malformed: line 3: NoQueue\n",
        status: Status::Malformed,
    },
    Row {
        script: b"type 1 fixed 0 0\ntype 2 weak\nnew 0 1\nweak 1 2 2\n",
        read_fails: &[],
        write_fails: &[],
        out: b"new 1 young\n",
        err: b"malformed: line 4: NilRoot\n",
        status: Status::Malformed,
    },
    Row {
        script: b"type 1 refs\nnew 0 1 2\ncopyrefs 0 1 0 0 2\n",
        read_fails: &[],
        write_fails: &[],
        out: b"new 1 young\n",
        err: b"malformed: line 3: NoItem\n",
        status: Status::Malformed,
    },
    Row {
        script: b"type 1 fixed 0 0\nnew 0 1\nplink 7 0 plain 2\ncount 7\nfromobj 0\ntoobj 1 7\nsame 0 1\ninc 7\ndec 7\ndec 7\ncount 7\nnextdead\nolink 8 0 light 0\nplink 9 0 light 0\n",
        read_fails: &[],
        write_fails: &[],
        out: b"new 1 young\ncount 2305843009213693954\nfromobj 7\ntoobj 1\nsame yes\ncount 2305843009213693953\nnextdead none\n",
        err: b"malformed: line 14: HasPLink\n",
        status: Status::Malformed,
    },
    Row {
        script: b"type 1 fixed 1 0\nnew 0 1\nput 0 0 9\nget 0 0\nget 0 0",
        read_fails: &[],
        write_fails: &[2],
        out: b"new 1 young\n",
        err: b"write fault\n",
        status: Status::WriteFault,
    },
    // The file is not begun.
    Row {
        script: b"type 1 fixed 1 0\nnew 0 1\nput 0 0 9\nget 0 0\nget 0 0",
        read_fails: &[1],
        write_fails: &[],
        out: b"",
        err: b"read fault\n",
        status: Status::ReadFault,
    },
    Row {
        script: b"type 1 fixed 1 0\nnew 0 1\nput 0 0 9\nget 0 0\nget 0 0",
        read_fails: &[2],
        write_fails: &[],
        out: b"",
        err: b"read fault\n",
        status: Status::ReadFault,
    },
    // The whole lines of a piece are done before the next read, and of a line that breaks off nothing is.
    Row {
        script: b"type 1 fixed 1 0\nnew 0 1\nput 0 0 9\nget 0 0\nget 0 0",
        read_fails: &[3],
        write_fails: &[],
        out: b"new 1 young\ngot 9\n",
        err: b"read fault\n",
        status: Status::ReadFault,
    },
    // A line that is refused ends the run before a read that would fail.
    Row {
        script: b"get 0 0\n",
        read_fails: &[3],
        write_fails: &[],
        out: b"",
        err: b"malformed: line 1: NilRoot\n",
        status: Status::Malformed,
    },
];

/// Scripts that collect.
const COLLECTING: [Row; 10] = [
    Row {
        script: b"type 1 fixed 1 0\nnew 0 1\nminor\n",
        read_fails: &[],
        write_fails: &[],
        out: b"new 1 young\nminor 1 0\n",
        err: b"",
        status: Status::Done,
    },
    Row {
        script: b"set nursery 16\ntype 1 fixed 2 0\nnew 0 1\nnew 0 1\nnew 0 1\nnew 0 1\nnew 0 1\n",
        read_fails: &[],
        write_fails: &[],
        out: b"new 1 young\nnew 2 young\nnew 3 young\nnew 4 young\nminor 1 3\nnew 5 young\n",
        err: b"",
        status: Status::Done,
    },
    Row {
        script: b"type 1 fixed 1 0 destructor\nnew 0 1\nstep\n",
        read_fails: &[],
        write_fails: &[],
        out: b"new 1 young\nminor 1 0\nstep scanning marking\n",
        err: b"",
        status: Status::Done,
    },
    Row {
        script: b"set limit 64\nset nursery 1000\ntype 1 ints\nnew 0 1 61\nnew 0 1 0\n",
        read_fails: &[],
        write_fails: &[],
        out: b"new 1 young\nminor 1 0\nstep scanning marking\nminor 0 0\nstep marking sweeping\nvisited 1\nminor 0 0\nstep sweeping finalizing\nminor 0 0\nstep finalizing scanning\nthreshold 16384\n",
        err: b"heap limit: line 5: 64 + 3 > 64\n",
        status: Status::HeapLimit,
    },
    Row {
        script: b"set nursery 16\nset young 17\ntype 1 ints\nnew 0 1 13\nused\nnew 1 1 0\n",
        read_fails: &[],
        write_fails: &[],
        out: b"new 1 young\nused 16 0\nminor 1 0\nnew 2 young\n",
        err: b"",
        status: Status::Done,
    },
    Row {
        script: b"set nursery 64\nset young 8\ntype 1 ints\nnew 0 1 5\nnew 1 1 53\nused\nnew 2 1 0\n",
        read_fails: &[],
        write_fails: &[],
        out: b"new 1 young\nnew 2 old\nused 64 0\nminor 1 0\nnew 3 young\n",
        err: b"",
        status: Status::Done,
    },
    Row {
        script: b"set nursery 64\nset young 8\ntype 1 ints\nnew 0 1 5\nnew 1 1 54\n",
        read_fails: &[],
        write_fails: &[],
        out: b"new 1 young\nminor 1 0\nnew 2 old\n",
        err: b"",
        status: Status::Done,
    },
    Row {
        script: b"set limit 64\nset young 8\ntype 1 ints\nnew 0 1 5\nnew 1 1 53\nused\nnew 2 1 0\n",
        read_fails: &[],
        write_fails: &[],
        out: b"new 1 young\nnew 2 old\nused 64 0\nminor 1 0\nstep scanning marking\nminor 0 0\nstep marking sweeping\nvisited 1\nvisited 2\nminor 0 0\nstep sweeping finalizing\nminor 0 0\nstep finalizing scanning\nthreshold 16384\n",
        err: b"heap limit: line 7: 64 + 3 > 64\n",
        status: Status::HeapLimit,
    },
    Row {
        script: b"set limit 64\nset young 8\ntype 1 ints\nnew 0 1 5\nnew 1 1 54\n",
        read_fails: &[],
        write_fails: &[],
        out: b"new 1 young\nminor 1 0\nstep scanning marking\nminor 0 0\nstep marking sweeping\nvisited 1\nminor 0 0\nstep sweeping finalizing\nminor 0 0\nstep finalizing scanning\nthreshold 16384\n",
        err: b"heap limit: line 5: 8 + 57 > 64\n",
        status: Status::HeapLimit,
    },
    Row {
        script: b"set nursery 1048576\nset limit 16777216\ntype 1 ints\nnew 0 1 16777216\n",
        read_fails: &[],
        write_fails: &[],
        out: b"minor 0 0\nminor 0 0\nstep scanning marking\nminor 0 0\nstep marking sweeping\nminor 0 0\nstep sweeping finalizing\nminor 0 0\nstep finalizing scanning\nthreshold 16384\n",
        err: b"heap limit: line 4: 0 + 16777219 > 16777216\n",
        status: Status::HeapLimit,
    },
];

#[test]
fn scripts_end_as_told(rt: HostRuntime) -> Result<(), Fail> {
    for row in &ROWS {
        let got = answered(
            rt.alloc(),
            &["replay", "s"],
            row.script,
            row.read_fails,
            row.write_fails,
        )?;
        assert_eq!(rt; got.out.as_slice(), row.out);
        assert_eq!(rt; got.err.as_slice(), row.err);
        assert_eq!(rt; got.status, row.status);
    }
    Ok(())
}

#[test]
fn collections_are_told(rt: HostRuntime) -> Result<(), Fail> {
    for row in &COLLECTING {
        let got = answered(
            rt.alloc(),
            &["replay", "s"],
            row.script,
            row.read_fails,
            row.write_fails,
        )?;
        assert_eq!(rt; got.out.as_slice(), row.out);
        assert_eq!(rt; got.err.as_slice(), row.err);
        assert_eq!(rt; got.status, row.status);
    }
    Ok(())
}

#[test]
fn other_words_are_told(rt: HostRuntime) -> Result<(), Fail> {
    let others: [&[&str]; 6] = [
        &[],
        &["replay"],
        &["bench", "7"],
        &["bench", "7", "100001"],
        &["replay", "s", "s"],
        &["Replay", "s"],
    ];
    for words in others {
        let got = answered(rt.alloc(), words, b"", &[], &[])?;
        assert_eq!(rt; got.out.as_slice(), b"".as_slice());
        assert_eq!(rt;
            got.err.as_slice(),
            b"usage: replay FILE, or bench START COUNT, or convert FILE\n".as_slice()
        );
        assert_eq!(rt; got.status, Status::Usage);
    }
    // The name is not there.
    let got = answered(rt.alloc(), &["replay", "t"], b"used\n", &[], &[])?;
    assert_eq!(rt; got.out.as_slice(), b"".as_slice());
    assert_eq!(rt; got.err.as_slice(), b"read fault\n".as_slice());
    assert_eq!(rt; got.status, Status::ReadFault);
    Ok(())
}

#[test]
fn other_forms_are_told(rt: HostRuntime) -> Result<(), Fail> {
    let got = answered(rt.alloc(), &["bench", "7", "0"], b"", &[], &[])?;
    assert_eq!(rt;
        got.out.as_slice(),
        b"commands 16\nlines 39\nbirths 15\nminors 4\ncycles 1\nused 93 0\n".as_slice()
    );
    assert_eq!(rt; got.status, Status::Done);
    let got = answered(
        rt.alloc(),
        &["convert", "s"],
        b"type 1 fixed 1 0\nnew 0 1\nput 0 0 300\nget 0 0\n",
        &[],
        &[],
    )?;
    assert_eq!(rt;
        got.out.as_slice(),
        b"PGH2\x02\x01\x01\x00\x00\x10\x00\x01\x13\x00\x00\xAC\x02\x14\x00\x00\x00".as_slice()
    );
    assert_eq!(rt; got.status, Status::Done);
    Ok(())
}
