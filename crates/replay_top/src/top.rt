//! The top call: words in, a status out.
ghost use Rattle.std.specs.Prelude.{◌≡◌, None, IfSome, IsTrue, option_copied, map, string_bytes};
ghost use Rattle.std.specs.Option.{ForSome};
ghost use Rattle.std.specs.Io.KnownBytes.{Keeps};
ghost use Rattle.heap_io.specs.Causes.{Rose};
ghost use Rattle.text_model.specs.Generated.{generated_items};
ghost use Rattle.heap_core.specs.Heap.{closed_heap};
ghost use Rattle.replay_top.specs.Top.{named, replayed, converted, benched, usage_text, stop_status, Tells, Replays, RunsConvert, RunsBench, IsComplete};

use crate::bench::{generated, run_bench};
use crate::line::{Stop, stop_of_convert};
use crate::script::replay;
use crate::tell::{tell, tell_stop};
use heap_core::Heap;
use heap_io::{Files, Sink};
use script_convert::convert;
use std::alloc::Global;

/// How a run of the program ends. Its number is the status of the process.
#[derive(Clone, Copy, Debug, PartialEq, Eq)]
pub enum Status {
    /// The script was read to its end, and the whole transcript is written.
    Done = 0,
    /// The words are none of the forms.
    Usage = 1,
    /// A line or record is refused.
    Malformed = 2,
    /// A request does not fit under the limit.
    HeapLimit = 3,
    OutOfMemory = 4,
    ReadFault = 5,
    WriteFault = 6,
}

/// Runs the program for its words. With `replay FILE` it does the units of the file, a script in either form, one after
/// another over a closed heap, and writes the transcript to `out`; with `convert FILE` it writes the script in its other form
/// to `out`; with `bench START COUNT` it does the generated script with so many drawn commands, and writes its summary to
/// `out`. On a stop before the script's end it writes why it stopped to `err`.
pub fn run<F: Files, K: Sink, E: Sink>(
    alloc: Global,
    words: &[String],
    files: &mut F,
    out: &mut K,
    err: &mut E,
    heap: &mut Heap,
) -> Status
    requires closed { heap.old ≡ closed_heap }
    requires may_begin { ForSome (replayed (map string_bytes words.now)) (λ name. IsTrue (F.may_begin files.old name)) }
    requires may_convert { ForSome (converted (map string_bytes words.now)) (λ name. IsTrue (F.may_begin files.old name)) }

    // What stands when a script was replayed, by the status. It is in either form.
    ensures replays { IfSome (replayed (map string_bytes words.now)) (λ name.
        Replays (F.bytes files.old name) (F.begun files.old) (F.begun files.new) (F.rest files.new) (K.written out.old) (K.written out.new)
        (E.written err.old) (E.written err.new) (E.faults err.old) (E.faults err.new) heap.new result) }

    // What stands when a script was converted, by the status. The heap stays closed.
    ensures converts { IfSome (converted (map string_bytes words.now)) (λ name.
        RunsConvert (F.bytes files.old name) (F.begun files.old) (F.begun files.new) (F.rest files.new) (K.written out.old) (K.written out.new)
        (E.written err.old) (E.written err.new) (E.faults err.old) (E.faults err.new) result
        × (heap.new ≡ closed_heap)) }

    // What stands when a generated script was done for its summary, by the status.
    ensures benches { IfSome (benched (map string_bytes words.now)) (λ asked.
        RunsBench (generated_items asked.0 asked.1) (K.written out.old) (K.written out.new)
        (E.written err.old) (E.written err.new) (E.faults err.old) (E.faults err.new) heap.new result) }

    // Other words change nothing, but that the usage is told.
    ensures usage { replayed (map string_bytes words.now) ≡ None → converted (map string_bytes words.now) ≡ None
        → benched (map string_bytes words.now) ≡ None → (result ≡ Status.Usage)
        × Keeps (K.written out.old) (K.written out.new) × (heap.new ≡ closed_heap)
        × Tells (E.written err.old) (E.written err.new) (E.faults err.old) (E.faults err.new) usage_text }

    // A fault comes only where the count of faults of what was handed in rose.
    ensures read { result ≡ Status.ReadFault → Rose (F.faults files.old) (F.faults files.new) }
    ensures write { result ≡ Status.WriteFault → Rose (K.faults out.old) (K.faults out.new) }

    // Where nothing stops the run, it comes to the script's end.
    ensures complete { IfSome (replayed (map string_bytes words.now)) (λ name.
        IsComplete (F.bytes files.old name) (Rose (F.faults files.old) (F.faults files.new)) (Rose (K.faults out.old) (K.faults out.new)) result) }
{
    if let Some(name) = named("replay", words) {
        return run_replay(alloc, name, files, out, err, heap);
    }
    if let Some(name) = named("convert", words) {
        return run_convert(alloc, name, files, out, err);
    }
    if let Some((start, count)) = generated(words) {
        return run_bench(alloc, start, count, out, err, heap);
    }
    tell(
        err,
        b"usage: replay FILE, or bench START COUNT, or convert FILE\n",
    );
    Status::Usage
}

/// Replays a script, and tells why it stopped.
fn run_replay<F: Files, K: Sink, E: Sink>(
    alloc: Global,
    name: &[u8],
    files: &mut F,
    out: &mut K,
    err: &mut E,
    heap: &mut Heap,
) -> Status
    requires closed { heap.old ≡ closed_heap }
    requires may_begin { IsTrue (F.may_begin files.old name.now) }
    ensures replays { Replays (F.bytes files.old name.now) (F.begun files.old) (F.begun files.new) (F.rest files.new) (K.written out.old) (K.written out.new)
        (E.written err.old) (E.written err.new) (E.faults err.old) (E.faults err.new) heap.new result }
    ensures read { result ≡ Status.ReadFault → Rose (F.faults files.old) (F.faults files.new) }
    ensures write { result ≡ Status.WriteFault → Rose (K.faults out.old) (K.faults out.new) }
    ensures complete { IsComplete (F.bytes files.old name.now) (Rose (F.faults files.old) (F.faults files.new)) (Rose (K.faults out.old) (K.faults out.new)) result }
{
    match replay(alloc, name, files, out, heap) {
        Ok(()) => Status::Done,
        Err(stop) => {
            tell_stop(err, stop);
            stop_status(stop)
        }
    }
}

/// Writes a script in the other form, and tells why it stopped.
fn run_convert<F: Files, K: Sink, E: Sink>(
    alloc: Global,
    name: &[u8],
    files: &mut F,
    out: &mut K,
    err: &mut E,
) -> Status
    requires { IsTrue (F.may_begin files.old name.now) }
    ensures converts { RunsConvert (F.bytes files.old name.now) (F.begun files.old) (F.begun files.new) (F.rest files.new) (K.written out.old) (K.written out.new)
        (E.written err.old) (E.written err.new) (E.faults err.old) (E.faults err.new) result }
    ensures read { result ≡ Status.ReadFault → Rose (F.faults files.old) (F.faults files.new) }
    ensures write { result ≡ Status.WriteFault → Rose (K.faults out.old) (K.faults out.new) }
{
    match convert(alloc, name, files, out) {
        Ok(()) => Status::Done,
        Err(end) => {
            let stop = stop_of_convert(end);
            tell_stop(err, stop);
            stop_status(stop)
        }
    }
}

/// The name of the file, where the words are a command and that.
fn named<'a>(command: &str, words: &'a [String]) -> Option<&'a [u8]>
    ensures { option_copied result ≡ named command.now (map string_bytes words.now) }
{
    if words.len() != 2 {
        return None;
    }
    if words[0].as_str() != command {
        return None;
    }
    Some(words[1].as_bytes())
}

pub(crate) fn stop_status(stop: Stop) -> Status
    ensures { result ≡ stop_status stop }
{
    match stop {
        Stop::Malformed { .. } => Status::Malformed,
        Stop::HeapLimit { .. } => Status::HeapLimit,
        Stop::OutOfMemory => Status::OutOfMemory,
        Stop::ReadFault => Status::ReadFault,
        Stop::WriteFault => Status::WriteFault,
    }
}
