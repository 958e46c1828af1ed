//! The one line of each command, as it is written.

ghost use Rattle.std.specs.Prelude.{◌≡◌, ◌++◌, ◌∷◌, [], false, Ok, OnOk, OnErr};
ghost use Rattle.text_model.specs.declared.item.Item.TheVariants.{Command as CommandItem};
ghost use Rattle.text_model.specs.Range.{is_above};
ghost use Rattle.text_model.specs.Grammar.{item_of};
ghost use Rattle.text_model.specs.ItemText.{item_text};
ghost use Rattle.script_text.specs.Printing.{Extends};

use crate::objects::print_object_command;
use std::alloc::AllocError;
use text_model::Command;

/// Appends the line of a command, with LF. Where memory runs out, what was in the buffer stays at its front, and
/// behind it may stand a part of the line. That line is read as this command. (This project's own.)
pub fn print_command(command: &Command, out: &mut Vec<u8>) -> Result<(), AllocError>
    requires { is_above command.now ≡ false }
    ensures ok { OnOk result (out.new.items ≡ out.old.items ++ (item_text (CommandItem command.now) ++ 10 ∷ [])) }
    ensures reads { item_of (item_text (CommandItem command.now)) ≡ Ok (CommandItem command.now) }
    ensures err { OnErr result (Extends out.old.items out.new.items) }
{
    print_object_command(command, out)
}
