//! The text of a generated script.

ghost use Rattle.std.specs.Prelude.{◌≡◌, ◌≤◌, ◌++◌, OnOk, OnErr};
ghost use Rattle.text_model.specs.Generated.{generated_script};
ghost use Rattle.script_text.specs.Printing.{Extends};

use crate::commands::Commands;
use script_text::print_command;
use std::alloc::AllocError;

/// The lines of the settings and types.
const HEADER: &[u8] = b"set roots 16\ntype 1 fixed 1 2\ntype 2 refs\ntype 3 weak\ntype 4 ints\n";

/// Appends the script with so many drawn commands, of which the sequence begins behind `start`. It has 20 lines before
/// them, and `collect` behind them.
///
/// The only error is out of memory. What was in the buffer stands at its front then, and behind it may stand a part of
/// the script. The time is linear in `commands`.
pub fn generate(start: u64, commands: u32, out: &mut Vec<u8>) -> Result<(), AllocError>
    requires { commands ≤ 100000 }
    ensures ok { OnOk result (out.new.items ≡ out.old.items ++ generated_script start commands) }
    ensures err { OnErr result (Extends out.old.items out.new.items) }
{
    out.extend_from_slice(HEADER)?;
    let mut ahead = Commands::new(start, commands);
    while let Some(command) = ahead.next() {
        print_command(&command, out)?;
    }
    Ok(())
}
