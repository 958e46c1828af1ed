//! Why no further record is read.

ghost use Rattle.std.specs.Prelude.{◌≡◌};
ghost use Rattle.script_binary.specs.Reader.{end_of_bad};

use std::error::Error;
use std::fmt;
use text_model::BadLine;

/// Why no further record is read.
#[derive(Clone, Copy, Debug, PartialEq, Eq)]
pub enum BinEnd {
    /// 16,000,000 records were read, and another begins that is not the end record.
    TooMany,
    /// The bytes have not the form of a record, or the script does not end with the end record.
    Syntax,
    /// A number is above the greatest of its place.
    Range,
    /// A read failed.
    ReadFault,
}

impl fmt::Display for BinEnd {
    ghost use Rattle.std.specs.Prelude.{Some};
    ghost use Rattle.script_binary.specs.Reader.{end_text};

    ghost output = { λ end. Some (end_text end) };

    fn fmt<W: fmt::Write>(&self, f: &mut fmt::Formatter<W>) -> fmt::Result {
        f.write_str(match self {
            BinEnd::TooMany => "too many records",
            BinEnd::Syntax => "no form of a record",
            BinEnd::Range => "a number is too great",
            BinEnd::ReadFault => "a read failed",
        })
    }
}

impl Error for BinEnd {}

/// Why a record whose numbers were read is refused.
pub(crate) fn end_of_bad(bad: BadLine) -> BinEnd
    ensures { result ≡ end_of_bad bad }
{
    match bad {
        BadLine::Syntax => BinEnd::Syntax,
        BadLine::Range => BinEnd::Range,
    }
}
