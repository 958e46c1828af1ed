//! A reader of a script in either form, unit by unit.
ghost use Rattle.std.specs.Prelude.{◌≡◌, ◌≤◌, List, Option, ℕ, [], false, IfOk, OnErr};
ghost use Rattle.heap_io.specs.Causes.{HasCause};
ghost use Rattle.script_text.specs.Mark.{BreaksMark};
ghost use Rattle.text_model.specs.Units.{Said};
ghost use Rattle.text_model.specs.Script.{bad_reason};
ghost use Rattle.script_convert.specs.Reader.{HandedOut, HandedLines, HandedRecords, MayRead, MayReadLine, MayReadRecord, GoesOn, ReadsUnit, HasUnitCause, is_form, end_of_line, end_of_record};

use heap_io::{Failed, Files};
use script_binary::{BinEnd, BinReader};
use script_text::{Bytes, LONGEST_LINE, LineReader, ReadEnd, parse_line};
use text_model::{BadLine, Item, Reason};

/// Why no further unit is read.
#[derive(Clone, Copy, Debug, PartialEq, Eq)]
pub enum UnitEnd {
    /// The unit of this number is refused.
    Refused { unit: u64, reason: Reason },
    /// A read failed.
    ReadFault,
}

/// Reads a script unit by unit: a text line by line, a binary script record by record.
#[derive(Debug, Drop)]
pub enum ScriptReader {
    Text(LineReader),
    Binary(BinReader),
}

impl ScriptReader {
    /// A reader at the script's beginning, which tells the form. It allocates nothing, and no byte of a text is taken.
    pub fn over<F: Files>(mut bytes: Bytes, files: &mut F) -> Result<ScriptReader, Failed>
        requires { bytes ≡ [] }
        ensures begins { IfOk result (λ reader. HandedOut (F.rest files.old) (F.rest files.new) reader [] × MayRead reader (F.rest files.new) 0) }
        ensures breaks { OnErr result (BreaksMark (F.rest files.old) (F.rest files.new)) }
        ensures cause { HasCause (F.faults files.old) (F.faults files.new) result }
    {
        match bytes.is_binary(files) {
            Ok(true) => Ok(ScriptReader::Binary(BinReader::over(bytes))),
            Ok(false) => Ok(ScriptReader::Text(LineReader::over(bytes))),
            Err(failed) => Err(failed),
        }
    }

    /// Whether the script is binary.
    pub fn is_binary(&self) -> bool
        ensures { result ≡ is_form self.now }
    {
        match self {
            ScriptReader::Text(_) => false,
            ScriptReader::Binary(_) => true,
        }
    }

    /// The item of the next unit, where so many were handed out, or `None` at the script's end. A blank line is an item too.
    /// It does not allocate. What `line` held is gone.
    ///
    /// The reader is to be used over one file, and not after `None` or an error.
    pub fn next<F: Files>(
        &mut self,
        number: u64,
        files: &mut F,
        line: &mut [u8; LONGEST_LINE],
    ) -> Result<Option<Item>, UnitEnd>
        requires may { MayRead self.old (F.rest files.old) number }
        requires few { number ≤ 16000000 }
        ensures reads { (script : Option (List ℕ)) (units : List Said) → HandedOut script (F.rest files.old) self.old units
            → ReadsUnit script (F.rest files.new) (HandedOut script (F.rest files.new) self.new) units result }
        ensures goes_on { GoesOn (MayRead self.new (F.rest files.new)) (F.rest files.new) number result }
        ensures cause { HasUnitCause (F.faults files.old) (F.faults files.new) result }
    {
        match self {
            ScriptReader::Text(reader) => next_line(reader, number, files, line),
            ScriptReader::Binary(reader) => next_record(reader, files),
        }
    }
}

/// The item of the next line.
fn next_line<F: Files>(
    reader: &mut LineReader,
    number: u64,
    files: &mut F,
    line: &mut [u8; LONGEST_LINE],
) -> Result<Option<Item>, UnitEnd>
    requires may { MayReadLine reader.old (F.rest files.old) number }
    requires few { number ≤ 16000000 }
    ensures reads { (script : Option (List ℕ)) (units : List Said) → HandedLines script (F.rest files.old) reader.old units
        → ReadsUnit script (F.rest files.new) (HandedLines script (F.rest files.new) reader.new) units result }
    ensures goes_on { GoesOn (MayReadLine reader.new (F.rest files.new)) (F.rest files.new) number result }
    ensures cause { HasUnitCause (F.faults files.old) (F.faults files.new) result }
{
    match reader.next(files, line) {
        Ok(Some(length)) => match parse_line(&line[..length]) {
            Ok(item) => Ok(Some(item)),
            Err(bad) => Err(UnitEnd::Refused {
                unit: number + 1,
                reason: bad_reason(bad),
            }),
        },
        Ok(None) => Ok(None),
        Err(end) => Err(end_of_line(number + 1, end)),
    }
}

/// The item of the next record.
fn next_record<F: Files>(reader: &mut BinReader, files: &mut F) -> Result<Option<Item>, UnitEnd>
    requires { reader.old.ended ≡ false }
    ensures reads { (script : Option (List ℕ)) (units : List Said) → HandedRecords script (F.rest files.old) reader.old units
        → ReadsUnit script (F.rest files.new) (HandedRecords script (F.rest files.new) reader.new) units result }
    ensures goes_on { GoesOn (MayReadRecord reader.new) (F.rest files.new) reader.old.count result }
    ensures cause { HasUnitCause (F.faults files.old) (F.faults files.new) result }
{
    match reader.next(files) {
        Ok(item) => Ok(item),
        Err(end) => Err(end_of_record(reader.unit(), end)),
    }
}

/// The reason that is told where a line has no item.
fn bad_reason(bad: BadLine) -> Reason
    ensures { result ≡ bad_reason bad }
{
    match bad {
        BadLine::Syntax => Reason::Syntax,
        BadLine::Range => Reason::Range,
    }
}

/// Why no unit is read where a line is not.
fn end_of_line(unit: u64, end: ReadEnd) -> UnitEnd
    ensures { result ≡ end_of_line unit end }
{
    match end {
        ReadEnd::TooMany => UnitEnd::Refused {
            unit,
            reason: Reason::TooManyLines,
        },
        ReadEnd::TooLong => UnitEnd::Refused {
            unit,
            reason: Reason::LineTooLong,
        },
        ReadEnd::ReadFault => UnitEnd::ReadFault,
    }
}

/// Why no unit is read where a record is not.
fn end_of_record(unit: u64, end: BinEnd) -> UnitEnd
    ensures { result ≡ end_of_record unit end }
{
    match end {
        BinEnd::TooMany => UnitEnd::Refused {
            unit,
            reason: Reason::TooManyLines,
        },
        BinEnd::Syntax => UnitEnd::Refused {
            unit,
            reason: Reason::Syntax,
        },
        BinEnd::Range => UnitEnd::Refused {
            unit,
            reason: Reason::Range,
        },
        BinEnd::ReadFault => UnitEnd::ReadFault,
    }
}
