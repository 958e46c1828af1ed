//! The summary of a generated script.
ghost use Rattle.std.specs.Prelude.{◌≡◌, ◌≤◌, IfOk, IsErrOf};
ghost use Rattle.heap_io.specs.Causes.{Rose};
ghost use Rattle.text_model.specs.Generated.{generated_items};
ghost use Rattle.heap_core.specs.Heap.{closed_heap};
ghost use Rattle.replay_bench.specs.Bench.{EndsBench, Summarizes};

use crate::items::do_items;
use crate::summary::print_summary;
use heap_core::Heap;
use heap_io::{Failed, Sink};
use script_convert::write_all;
use session_core::Session;
use std::alloc::{AllocError, Global};
use store_model::Line;

/// Why no summary was written of a generated script. No item of one is refused, and the limit refuses no birth.
#[derive(Clone, Copy, Debug, PartialEq, Eq)]
pub enum BenchEnd {
    OutOfMemory,
    /// A call of the sink failed.
    WriteFault,
}

impl From<AllocError> for BenchEnd {
    ghost use Rattle.replay_bench.specs.declared.top.BenchEnd.TheVariants.{OutOfMemory};

    ghost from_gives = { λ _ e. e ≡ OutOfMemory };

    fn from(_: AllocError) -> Self {
        BenchEnd::OutOfMemory
    }
}

/// Does the items of the script with `count` drawn commands, of which the sequence begins behind `start`, over a closed heap, and
/// writes the summary of their transcript, which itself is not written: the lines `commands N`, `lines N`, `births N`, `minors N`,
/// `cycles N` and `used K H`. (Scripts and summary are this project's own.)
///
/// At `OutOfMemory` nothing is said of the heap, and nothing is written. At `WriteFault` all items are done, and of the summary not
/// all was written.
pub fn bench<K: Sink>(
    alloc: Global,
    start: u64,
    count: u32,
    out: &mut K,
    heap: &mut Heap,
) -> Result<(), BenchEnd>
    requires few { count ≤ 100000 }
    requires closed { heap.old ≡ closed_heap }
    ensures ends { EndsBench (generated_items start count) (K.written out.old) (K.written out.new) heap.new result }
    ensures later { K.faults out.old ≤ K.faults out.new }
    ensures fault { IsErrOf result BenchEnd.WriteFault → Rose (K.faults out.old) (K.faults out.new) }
{
    let text = summary_of(alloc, start, count, heap)?;
    match write_all(out, &text) {
        Ok(()) => Ok(()),
        Err(Failed) => Err(BenchEnd::WriteFault),
    }
}

/// Does the generated script, and answers the text of its summary. The error is out of memory.
fn summary_of(alloc: Global, start: u64, count: u32, heap: &mut Heap) -> Result<Vec<u8>, AllocError>
    requires few { count ≤ 100000 }
    requires closed { heap.old ≡ closed_heap }
    ensures { IfOk result (λ text. Summarizes (generated_items start count) heap.new (λ summary. text.items ≡ summary)) }
{
    let mut session = Session::new(alloc)?;
    let tally = do_items(alloc, start, count, &mut session, heap)?;
    let mut text = Vec::new(alloc);
    let Ok((kept, husks)) = heap.used() else {
        return Err(AllocError);
    };
    print_summary(tally, &Line::UsedIs { kept, husks }, &mut text)?;
    Ok(text)
}
