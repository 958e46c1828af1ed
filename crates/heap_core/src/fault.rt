//! Why a call of a heap is refused.

ghost use Rattle.std.specs.Prelude.{◌≡◌};

use std::alloc::{AllocError, AllocFailed};
use thiserror::Error;

/// Why a call of a heap is refused.
#[derive(Clone, Copy, Debug, PartialEq, Eq, Error)]
pub enum HeapFault {
    /// Memory ran out in the middle of an earlier collection, and the heap can't be used any more.
    #[error("the heap is spent")]
    Spent,
    #[error("out of memory")]
    OutOfMemory,
    /// A birth would exceed the heap limit: so many words are counted, and so many were asked for.
    #[error("heap limit: {counted} + {request} > {limit}")]
    HeapLimit {
        counted: u64,
        request: u64,
        limit: u64,
    },
}

impl From<AllocError> for HeapFault {
    ghost use Rattle.heap_core.specs.declared.fault.HeapFault.TheVariants.{OutOfMemory};

    ghost from_gives = { λ _ fault. fault ≡ OutOfMemory };

    fn from(_: AllocError) -> Self {
        HeapFault::OutOfMemory
    }
}

impl<T: Drop> From<AllocFailed<T>> for HeapFault {
    ghost use Rattle.heap_core.specs.declared.fault.HeapFault.TheVariants.{OutOfMemory};

    ghost from_gives = { λ _ fault. fault ≡ OutOfMemory };

    fn from(_: AllocFailed<T>) -> Self {
        HeapFault::OutOfMemory
    }
}
