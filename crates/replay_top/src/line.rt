//! One unit of the script: its item is done, and its text is written.
ghost use Rattle.std.specs.Prelude.{◌≡◌, ◌≤◌, IsErrOf, All, Ok, Some};
ghost use Rattle.heap_io.specs.Causes.{Rose};
ghost use Rattle.store_model.specs.Progress.{Progress};
ghost use Rattle.text_model.specs.Text.{IsProper};
ghost use Rattle.session_core.specs.Standing.{IsPlaced, StandsAt};
ghost use Rattle.replay_top.specs.Written.{WritesLines};
ghost use Rattle.replay_top.specs.Run.{stop_of_convert};
ghost use Rattle.replay_top.specs.Units.{EndsUnit};

use heap_core::Heap;
use heap_io::{Failed, Sink};
use line_text::print_lines;
use script_convert::{ConvertEnd, write_all};
use session_core::{RunFault, Session};
use std::alloc::AllocError;
use store_model::{Item, Line, Reason};

/// Why a run stops before the script's end.
#[derive(Clone, Copy, Debug, PartialEq, Eq)]
pub(crate) enum Stop {
    Malformed {
        line: u64,
        reason: Reason,
    },
    HeapLimit {
        line: u64,
        counted: u64,
        request: u64,
        limit: u64,
    },
    OutOfMemory,
    ReadFault,
    WriteFault,
}

impl From<AllocError> for Stop {
    ghost use Rattle.replay_top.specs.declared.line.Stop.TheVariants.{OutOfMemory};

    ghost from_gives = { λ _ e. e ≡ OutOfMemory };

    fn from(_: AllocError) -> Self {
        Stop::OutOfMemory
    }
}

/// How a run stops where a conversion does.
pub(crate) fn stop_of_convert(end: ConvertEnd) -> Stop
    ensures { result ≡ stop_of_convert end }
{
    match end {
        ConvertEnd::Malformed { unit, reason } => Stop::Malformed { line: unit, reason },
        ConvertEnd::ReadFault => Stop::ReadFault,
        ConvertEnd::WriteFault => Stop::WriteFault,
        ConvertEnd::OutOfMemory => Stop::OutOfMemory,
    }
}

/// Writes the text of lines; of none it makes no call. What `text` held may be gone.
fn write_lines<K: Sink>(lines: &[Line], text: &mut Vec<u8>, out: &mut K) -> Result<(), Stop>
    requires { All IsProper lines.now }
    ensures ends { WritesLines lines.now (K.written out.old) (K.written out.new) result }
    ensures later { K.faults out.old ≤ K.faults out.new }
    ensures fault { IsErrOf result Stop.WriteFault → Rose (K.faults out.old) (K.faults out.new) }
{
    if lines.is_empty() {
        return Ok(());
    }
    text.clear();
    print_lines(lines, text)?;
    match write_all(out, text) {
        Ok(()) => Ok(()),
        Err(Failed) => Err(Stop::WriteFault),
    }
}

/// Does the item of unit `number`, and writes its text; where the limit refuses it, that of its collections. What `lines` and
/// `text` held is gone.
pub(crate) fn do_item<K: Sink>(
    item: &Item,
    number: u64,
    session: &mut Session,
    heap: &mut Heap,
    lines: &mut Vec<Line>,
    text: &mut Vec<u8>,
    out: &mut K,
) -> Result<(), Stop>
    requires placed { IsPlaced session.old heap.old }
    ensures ends { (at : Progress) → StandsAt session.old heap.old at →
        EndsUnit at number (Ok (Some item.now)) (K.written out.old) (K.written out.new) session.new heap.new result }
    ensures later { K.faults out.old ≤ K.faults out.new }
    ensures fault { IsErrOf result Stop.WriteFault → Rose (K.faults out.old) (K.faults out.new) }
{
    lines.clear();
    match session.item(heap, item, lines) {
        Ok(()) => write_lines(lines, text, out),
        Err(
            RunFault::HeapLimit {
                counted,
                request,
                limit,
            },
        ) => match write_lines(lines, text, out) {
            Ok(()) => Err(Stop::HeapLimit {
                line: number,
                counted,
                request,
                limit,
            }),
            Err(stop) => Err(stop),
        },
        Err(RunFault::Malformed(reason)) => Err(Stop::Malformed {
            line: number,
            reason,
        }),
        Err(RunFault::OutOfMemory) => Err(Stop::OutOfMemory),
    }
}
