//! A whole script, from its first unit on.
ghost use Rattle.std.specs.Prelude.{◌≡◌, ◌≤◌, ℕ, List, [], Option, IsTrue, IsErrOf};
ghost use Rattle.heap_io.specs.Causes.{Rose};
ghost use Rattle.heap_core.specs.Heap.{closed_heap};
ghost use Rattle.store_model.specs.Progress.{at_start};
ghost use Rattle.script_convert.specs.Reader.{HandedOut, MayRead};
ghost use Rattle.session_core.specs.Standing.{StandsAt};
ghost use Rattle.replay_top.specs.Run.{EndsRun, stop_of_unit};

use crate::line::{Stop, do_item};
use heap_core::Heap;
use heap_io::{Failed, Files, Sink};
use script_convert::{ScriptReader, UnitEnd};
use script_text::{Bytes, LONGEST_LINE};
use session_core::Session;
use std::alloc::Global;

/// Replays the script of a file, in either form, over a heap, and writes its transcript.
pub(crate) fn replay<F: Files, K: Sink>(
    alloc: Global,
    name: &[u8],
    files: &mut F,
    out: &mut K,
    heap: &mut Heap,
) -> Result<(), Stop>
    requires may_begin { IsTrue (F.may_begin files.old name.now) }
    requires closed { heap.old ≡ closed_heap }
    ensures ends { EndsRun (F.bytes files.old name.now) (F.begun files.old) (F.begun files.new) (F.rest files.new) (K.written out.old) (K.written out.new) heap.new result }
    ensures read { IsErrOf result Stop.ReadFault → Rose (F.faults files.old) (F.faults files.new) }
    ensures write { IsErrOf result Stop.WriteFault → Rose (K.faults out.old) (K.faults out.new) }
    ensures read_later { F.faults files.old ≤ F.faults files.new }
    ensures write_later { K.faults out.old ≤ K.faults out.new }
{
    let Ok(()) = files.begin_file(name) else {
        return Err(Stop::ReadFault);
    };
    let bytes = Bytes::new(alloc)?;
    let mut session = Session::new(alloc)?;
    match ScriptReader::over(bytes, files) {
        Ok(mut reader) => do_units(alloc, &mut reader, files, out, &mut session, heap),
        Err(Failed) => Err(Stop::ReadFault),
    }
}

/// Does the units of a script one after another, and writes their text.
fn do_units<F: Files, K: Sink>(
    alloc: Global,
    reader: &mut ScriptReader,
    files: &mut F,
    out: &mut K,
    session: &mut Session,
    heap: &mut Heap,
) -> Result<(), Stop>
    requires may { MayRead reader.old (F.rest files.old) 0 }
    requires placed { StandsAt session.old heap.old at_start }
    ensures ends { (script : Option (List ℕ)) (begun begun_after : Option ℕ) → HandedOut script (F.rest files.old) reader.old []
        → EndsRun script begun begun_after (F.rest files.new) (K.written out.old) (K.written out.new) heap.new result }
    ensures read { IsErrOf result Stop.ReadFault → Rose (F.faults files.old) (F.faults files.new) }
    ensures write { IsErrOf result Stop.WriteFault → Rose (K.faults out.old) (K.faults out.new) }
    ensures read_later { F.faults files.old ≤ F.faults files.new }
    ensures write_later { K.faults out.old ≤ K.faults out.new }
{
    let mut lines = Vec::new(alloc);
    let mut text = Vec::new(alloc);
    let mut line = [0; LONGEST_LINE];
    let mut number = 0;
    'units: loop {
        match reader.next(number, files, &mut line) {
            Ok(Some(item)) => {
                number += 1;
                match do_item(&item, number, session, heap, &mut lines, &mut text, out) {
                    Ok(()) => {}
                    Err(stop) => return Err(stop),
                }
            }
            Ok(None) => return Ok(()),
            Err(end) => return Err(stop_of_unit(end)),
        }
    }
}

/// How a run stops where a unit is not read.
fn stop_of_unit(end: UnitEnd) -> Stop
    ensures { result ≡ stop_of_unit end }
{
    match end {
        UnitEnd::Refused { unit, reason } => Stop::Malformed { line: unit, reason },
        UnitEnd::ReadFault => Stop::ReadFault,
    }
}
