//! The items of a generated script, one after another over a heap.
ghost use Rattle.std.specs.Prelude.{◌≡◌, ◌≤◌, [], Some, IfOk};
ghost use Rattle.text_model.specs.Generated.{generated_items};
ghost use Rattle.object_model.specs.Setup.{defaults};
ghost use Rattle.store_model.specs.Progress.{Progress};
ghost use Rattle.heap_core.specs.Heap.{closed_heap};
ghost use Rattle.session_core.specs.Standing.{StandsAt};
ghost use Rattle.replay_bench.specs.Items.{CanDoItem, CountsItem, CountsItems};

use crate::tally::Tally;
use heap_core::Heap;
use script_gen::Generator;
use session_core::{RunFault, Session};
use std::alloc::{AllocError, Global};
use store_model::{Item, Line};

/// Does an item of the script that is neither refused nor exceeds the limit, and counts its lines. What `lines` held is gone. The
/// error is out of memory, also where a count has more than 64 bits.
fn do_item(
    item: &Item,
    tally: Tally,
    session: &mut Session,
    heap: &mut Heap,
    lines: &mut Vec<Line>,
) -> Result<Tally, AllocError>
    requires { CanDoItem session.old heap.old item.now }
    ensures { (at : Progress) → StandsAt session.old heap.old at → IfOk result (λ more. CountsItem at item.now tally more session.new heap.new) }
{
    lines.clear();
    match session.item(heap, item, lines) {
        Ok(()) => match tally.plus(item, lines) {
            Some(more) => Ok(more),
            None => Err(AllocError),
        },
        Err(RunFault::OutOfMemory) => Err(AllocError),
        Err(RunFault::Malformed(_)) => unreachable!(),
        Err(RunFault::HeapLimit { .. }) => unreachable!(),
    }
}

/// Does the items of a generated script over a closed heap, and counts what they tell. The error is out of memory.
pub(crate) fn do_items(
    alloc: Global,
    start: u64,
    count: u32,
    session: &mut Session,
    heap: &mut Heap,
) -> Result<Tally, AllocError>
    requires few { count ≤ 100000 }
    requires session { session.old ≡ record { settings = defaults; names = []; types = Some [] } }
    requires closed { heap.old ≡ closed_heap }
    ensures { IfOk result (λ tally. CountsItems (generated_items start count) tally session.new heap.new) }
{
    let mut ahead = Generator::new(start, count);
    let mut lines = Vec::new(alloc);
    let mut tally = Tally::new();
    while let Some(item) = ahead.next() {
        tally = do_item(&item, tally, session, heap, &mut lines)?;
    }
    Ok(tally)
}
