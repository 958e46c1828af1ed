//! The text of a summary.
ghost use Rattle.std.specs.Prelude.{◌≡◌, ◌++◌, OnOk};
ghost use Rattle.text_model.specs.Text.{IsProper, line_text};
ghost use Rattle.replay_bench.specs.Summary.{count_text, tally_text};

use crate::tally::Tally;
use itoa::Buffer;
use line_text::print_line;
use std::alloc::AllocError;
use store_model::Line;

/// Appends the six lines of a summary.
pub(crate) fn print_summary(tally: Tally, used: &Line, text: &mut Vec<u8>) -> Result<(), AllocError>
    requires { IsProper used.now }
    ensures { OnOk result (text.new.items ≡ text.old.items ++ (tally_text tally ++ line_text used.now)) }
{
    print_tally(tally, text)?;
    print_line(used, text)
}

/// Appends the lines of the counts.
fn print_tally(tally: Tally, text: &mut Vec<u8>) -> Result<(), AllocError>
    ensures { OnOk result (text.new.items ≡ text.old.items ++ tally_text tally) }
{
    print_count(b"commands ", tally.commands, text)?;
    print_count(b"lines ", tally.lines, text)?;
    print_count(b"births ", tally.births, text)?;
    print_count(b"minors ", tally.minors, text)?;
    print_count(b"cycles ", tally.cycles, text)
}

/// Appends a line of a name and a number.
fn print_count(name: &[u8], number: u64, text: &mut Vec<u8>) -> Result<(), AllocError>
    ensures { OnOk result (text.new.items ≡ text.old.items ++ count_text name.now number) }
{
    let mut buffer = Buffer::new();
    text.extend_from_slice(name)?;
    text.extend_from_slice(buffer.format(number).as_bytes())?;
    text.extend_from_slice(b"\n")
}
