//! What is told of a run that stops before its end.
ghost use Rattle.std.specs.Prelude.{◌≡◌, ◌++◌, codes, decimal};
ghost use Rattle.heap_io.specs.Causes.{HasCause};
ghost use Rattle.store_model.specs.ErrorText.{reason_text, malformed_text, limit_text};
ghost use Rattle.script_convert.specs.Written.{Writes};
ghost use Rattle.replay_top.specs.Top.{stop_text, Tells};

use crate::line::Stop;
use heap_io::{Failed, Sink};
use itoa::Buffer;
use script_convert::write_all;
use store_model::Reason;

/// Writes a text. A failure changes nothing.
pub(crate) fn tell<E: Sink>(err: &mut E, text: &[u8])
    ensures { Tells (E.written err.old) (E.written err.new) (E.faults err.old) (E.faults err.new) text.now }
{
    let _ = write_all(err, text);
}

/// Writes why a run stopped.
pub(crate) fn tell_stop<E: Sink>(err: &mut E, stop: Stop)
    ensures { Tells (E.written err.old) (E.written err.new) (E.faults err.old) (E.faults err.new) (stop_text stop) }
{
    match stop {
        Stop::Malformed { line, reason } => {
            let _ = write_malformed(err, line, reason);
        }
        Stop::HeapLimit {
            line,
            counted,
            request,
            limit,
        } => {
            let _ = write_limit(err, line, counted, request, limit);
        }
        Stop::OutOfMemory => tell(err, b"out of memory\n"),
        Stop::ReadFault => tell(err, b"read fault\n"),
        Stop::WriteFault => tell(err, b"write fault\n"),
    }
}

/// Writes one text after another.
fn write_both<E: Sink>(err: &mut E, first: &[u8], second: &[u8]) -> Result<(), Failed>
    ensures writes { Writes (E.written err.old) (E.written err.new) (first.now ++ second.now) result }
    ensures cause { HasCause (E.faults err.old) (E.faults err.new) result }
{
    write_all(err, first)?;
    write_all(err, second)
}

/// Writes a number behind a text. It does not allocate.
fn write_number<E: Sink>(err: &mut E, text: &[u8], number: u64) -> Result<(), Failed>
    ensures writes { Writes (E.written err.old) (E.written err.new) (text.now ++ decimal number) result }
    ensures cause { HasCause (E.faults err.old) (E.faults err.new) result }
{
    let mut buffer = Buffer::new();
    write_both(err, text, buffer.format(number).as_bytes())
}

/// Writes why a line was refused.
fn write_reason<E: Sink>(err: &mut E, reason: Reason) -> Result<(), Failed>
    ensures writes { Writes (E.written err.old) (E.written err.new) ((codes ": " ++ reason_text reason) ++ codes "\n") result }
    ensures cause { HasCause (E.faults err.old) (E.faults err.new) result }
{
    write_both(err, b": ", reason_name(reason))?;
    write_all(err, b"\n")
}

/// Writes which line was refused, and why.
fn write_malformed<E: Sink>(err: &mut E, line: u64, reason: Reason) -> Result<(), Failed>
    ensures writes { Writes (E.written err.old) (E.written err.new) (malformed_text line reason) result }
    ensures cause { HasCause (E.faults err.old) (E.faults err.new) result }
{
    write_number(err, b"malformed: line ", line)?;
    write_reason(err, reason)
}

/// Writes which line the limit refused, and the numbers.
fn write_limit<E: Sink>(
    err: &mut E,
    line: u64,
    counted: u64,
    request: u64,
    limit: u64,
) -> Result<(), Failed>
    ensures writes { Writes (E.written err.old) (E.written err.new) (limit_text line counted request limit) result }
    ensures cause { HasCause (E.faults err.old) (E.faults err.new) result }
{
    write_number(err, b"heap limit: line ", line)?;
    write_counted(err, counted, request, limit)
}

/// Writes the words that are counted, and what is asked for beside them.
fn write_counted<E: Sink>(err: &mut E, counted: u64, request: u64, limit: u64) -> Result<(), Failed>
    ensures writes { Writes (E.written err.old) (E.written err.new) ((codes ": " ++ decimal counted)
        ++ ((codes " + " ++ decimal request) ++ ((codes " > " ++ decimal limit) ++ codes "\n"))) result }
    ensures cause { HasCause (E.faults err.old) (E.faults err.new) result }
{
    write_number(err, b": ", counted)?;
    write_request(err, request, limit)
}

/// Writes the words that are asked for, and the limit.
fn write_request<E: Sink>(err: &mut E, request: u64, limit: u64) -> Result<(), Failed>
    ensures writes { Writes (E.written err.old) (E.written err.new) ((codes " + " ++ decimal request) ++ ((codes " > " ++ decimal limit) ++ codes "\n")) result }
    ensures cause { HasCause (E.faults err.old) (E.faults err.new) result }
{
    write_number(err, b" + ", request)?;
    write_most(err, limit)
}

/// Writes the limit, and ends the line.
fn write_most<E: Sink>(err: &mut E, limit: u64) -> Result<(), Failed>
    ensures writes { Writes (E.written err.old) (E.written err.new) ((codes " > " ++ decimal limit) ++ codes "\n") result }
    ensures cause { HasCause (E.faults err.old) (E.faults err.new) result }
{
    write_number(err, b" > ", limit)?;
    write_all(err, b"\n")
}

/// The text of a reason is its name.
fn reason_name(reason: Reason) -> &'static [u8]
    ensures { result.now ≡ reason_text reason }
{
    match reason {
        Reason::TooManyLines => b"TooManyLines",
        Reason::LineTooLong => b"LineTooLong",
        Reason::Syntax => b"Syntax",
        Reason::Range => b"Range",
        Reason::Late => b"Late",
        Reason::SetTwice => b"SetTwice",
        Reason::SetRange => b"SetRange",
        Reason::TypeTwice => b"TypeTwice",
        Reason::TooManyTypes => b"TooManyTypes",
        Reason::NoRoot => b"NoRoot",
        Reason::NilRoot => b"NilRoot",
        Reason::NoType => b"NoType",
        Reason::WrongShape => b"WrongShape",
        Reason::NoItem => b"NoItem",
        Reason::NotPinned => b"NotPinned",
        Reason::NoQueue => b"NoQueue",
        Reason::Registered => b"Registered",
        Reason::StructUsed => b"StructUsed",
        Reason::HasPLink => b"HasPLink",
        Reason::NoStruct => b"NoStruct",
        Reason::StructPending => b"StructPending",
        Reason::CountFull => b"CountFull",
        Reason::CountZero => b"CountZero",
    }
}
