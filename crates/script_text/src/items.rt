//! The one line of each item that is not blank, as it is written.

ghost use Rattle.std.specs.Prelude.{◌≡◌, ◌≤◌, ◌++◌, ◌∷◌, [], codes, decimal, slice_index_or, Ok, OnOk, OnErr};
ghost use Rattle.text_model.specs.Grammar.{item_of, setting_names};
ghost use Rattle.text_model.specs.ItemText.{joined, item_text, shape_text, destructor_text};
ghost use Rattle.text_model.specs.ItemLine.{HasLine};
ghost use Rattle.script_text.specs.Printing.{spaced, Extends};

use crate::commands::print_command;
use crate::print::{print_line, print_numbers};
use std::alloc::AllocError;
use text_model::Item;
use type_table::{Shape, TypeInfo};

/// Appends the line of an item that is not blank, with LF. Its numbers are at most the greatest of their places, and a weak
/// type has no destructor. Where memory runs out, what was in the buffer stays at its front, and behind it may stand a part
/// of the line. That line is read as this item. (This project's own.)
pub fn print_item(item: &Item, out: &mut Vec<u8>) -> Result<(), AllocError>
    requires { HasLine item.now }
    ensures ok { OnOk result (out.new.items ≡ out.old.items ++ (item_text item.now ++ 10 ∷ [])) }
    ensures reads { item_of (item_text item.now) ≡ Ok item.now }
    ensures err { OnErr result (Extends out.old.items out.new.items) }
{
    match item {
        Item::Blank => unreachable!(),
        Item::Setting { name, value } => print_setting(*name, *value, out),
        Item::TypeDef { id, info } => print_type(*id, *info, out),
        Item::Command(command) => print_command(command, out),
    }
}

/// Appends the line of a setting, with LF.
fn print_setting(name: u8, value: u64, out: &mut Vec<u8>) -> Result<(), AllocError>
    requires { name ≤ 12 }
    ensures ok { OnOk result (out.new.items ≡ out.old.items
        ++ (joined (codes "set" ∷ slice_index_or setting_names name [] ∷ decimal value ∷ []) ++ 10 ∷ [])) }
    ensures err { OnErr result (Extends out.old.items out.new.items) }
{
    out.extend_from_slice(b"set ")?;
    print_line(setting_name(name), &[value], out)
}

/// The name of a setting, by its place.
fn setting_name(name: u8) -> &'static [u8]
    requires { name ≤ 12 }
    ensures { result.now ≡ slice_index_or setting_names name [] }
{
    match name {
        0 => b"nursery",
        1 => b"young",
        2 => b"limit",
        3 => b"increment",
        4 => b"minimum",
        5 => b"sweep",
        6 => b"pins",
        7 => b"page",
        8 => b"arena",
        9 => b"small",
        10 => b"card",
        11 => b"roots",
        12 => b"queues",
        _ => unreachable!(),
    }
}

/// Appends the line of a type, with LF.
fn print_type(id: u16, info: TypeInfo, out: &mut Vec<u8>) -> Result<(), AllocError>
    ensures ok { OnOk result (out.new.items ≡ out.old.items
        ++ (joined (codes "type" ∷ decimal id ∷ (shape_text info.shape ++ destructor_text info.destructor)) ++ 10 ∷ [])) }
    ensures err { OnErr result (Extends out.old.items out.new.items) }
{
    out.extend_from_slice(b"type")?;
    print_numbers(&[id.into()], out)?;
    print_shape(info.shape, out)?;
    print_end(info.destructor, out)
}

/// Appends the words of a shape, with a space before each.
fn print_shape(shape: Shape, out: &mut Vec<u8>) -> Result<(), AllocError>
    ensures ok { OnOk result (out.new.items ≡ out.old.items ++ spaced (shape_text shape)) }
    ensures err { OnErr result (Extends out.old.items out.new.items) }
{
    match shape {
        Shape::Fixed { ints, refs } => {
            out.extend_from_slice(b" fixed")?;
            print_numbers(&[ints.into(), refs.into()], out)
        }
        Shape::IntArray => out.extend_from_slice(b" ints"),
        Shape::RefArray => out.extend_from_slice(b" refs"),
        Shape::Weak => out.extend_from_slice(b" weak"),
    }
}

/// Appends the end of a type's line: `destructor`, where the type has one, and LF.
fn print_end(destructor: bool, out: &mut Vec<u8>) -> Result<(), AllocError>
    ensures ok { OnOk result (out.new.items ≡ out.old.items ++ (spaced (destructor_text destructor) ++ 10 ∷ [])) }
    ensures err { OnErr result (Extends out.old.items out.new.items) }
{
    if destructor {
        return out.extend_from_slice(b" destructor\n");
    }
    out.extend_from_slice(b"\n")
}
