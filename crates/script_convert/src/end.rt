//! Why a conversion stops before the script's end.
ghost use Rattle.std.specs.Prelude.{◌≡◌};

use std::alloc::AllocError;
use text_model::Reason;

/// Why a conversion stops before the script's end.
#[derive(Clone, Copy, Debug, PartialEq, Eq)]
pub enum ConvertEnd {
    /// The unit of this number is refused.
    Malformed { unit: u64, reason: Reason },
    /// A read failed.
    ReadFault,
    /// A write failed.
    WriteFault,
    OutOfMemory,
}

impl From<AllocError> for ConvertEnd {
    ghost use Rattle.script_convert.specs.declared.end.ConvertEnd.TheVariants.{OutOfMemory};

    ghost from_gives = { λ _ e. e ≡ OutOfMemory };

    fn from(_: AllocError) -> Self {
        ConvertEnd::OutOfMemory
    }
}
