//! A generated script, of which the program writes a summary.
ghost use Rattle.std.specs.Prelude.{◌≡◌, ◌≢◌, ◌≤◌, IfSome, map, string_bytes};
ghost use Rattle.heap_io.specs.Causes.{Rose};
ghost use Rattle.text_model.specs.Generated.{generated_items};
ghost use Rattle.heap_core.specs.Heap.{closed_heap};
ghost use Rattle.replay_top.specs.declared.top.Status.TheVariants.{WriteFault as FaultStatus, ReadFault as ReadStatus};
ghost use Rattle.replay_top.specs.Top.{benched, RunsBench};
ghost use Rattle.replay_top.specs.Run.{stop_of_bench};

use crate::line::Stop;
use crate::tell::tell_stop;
use crate::top::{Status, stop_status};
use heap_core::Heap;
use heap_io::Sink;
use replay_bench::{BenchEnd, bench};
use script_text::parse_number;
use std::alloc::Global;

/// The greatest count of drawn commands.
const MOST: u64 = 100_000;

/// The start and the count of a generated script, where the words are `bench` and these two numbers.
pub(crate) fn generated(words: &[String]) -> Option<(u64, u64)>
    ensures asked { result ≡ benched (map string_bytes words.now) }
    ensures few { IfSome result (λ asked. asked.1 ≤ 100000) }
{
    if words.len() != 3 {
        return None;
    }
    if words[0].as_str() != "bench" {
        return None;
    }
    let start = parse_number(words[1].as_bytes())?;
    let count = parse_number(words[2].as_bytes())?;
    if count > MOST {
        return None;
    }
    Some((start, count))
}

/// Does a generated script for its summary, and tells why it stopped.
pub(crate) fn run_bench<K: Sink, E: Sink>(
    alloc: Global,
    start: u64,
    count: u64,
    out: &mut K,
    err: &mut E,
    heap: &mut Heap,
) -> Status
    requires few { count ≤ 100000 }
    requires closed { heap.old ≡ closed_heap }
    ensures benches { RunsBench (generated_items start count) (K.written out.old) (K.written out.new)
        (E.written err.old) (E.written err.new) (E.faults err.old) (E.faults err.new) heap.new result }
    ensures write { result ≡ FaultStatus → Rose (K.faults out.old) (K.faults out.new) }
    ensures read { result ≢ ReadStatus }
{
    match bench(alloc, start, count as u32, out, heap) {
        Ok(()) => Status::Done,
        Err(end) => {
            let stop = stop_of_bench(end);
            tell_stop(err, stop);
            stop_status(stop)
        }
    }
}

/// How a run stops where there is no summary.
fn stop_of_bench(end: BenchEnd) -> Stop
    ensures { result ≡ stop_of_bench end }
{
    match end {
        BenchEnd::OutOfMemory => Stop::OutOfMemory,
        BenchEnd::WriteFault => Stop::WriteFault,
    }
}
