//! The one record of each item that is not blank, as it is written. Where memory runs out, what was in the buffer stays at
//! its front, and behind it may stand a part of the record.

ghost use Rattle.std.specs.Prelude.{◌≡◌, ◌++◌, ◌∷◌, List, ℕ, Ok, OnOk, OnErr, false, true};
ghost use Rattle.text_model.specs.Binary.{Fields, fields, fields_bytes, command_fields, type_fields, item_record, number_bytes, numbers_bytes};
ghost use Rattle.text_model.specs.BinaryReading.{record_at};
ghost use Rattle.text_model.specs.ItemLine.{HasLine};
ghost use Rattle.script_text.specs.Groups.{is_object_command, is_structure_command};
ghost use Rattle.script_text.specs.Printing.{Extends};
ghost use Rattle.script_binary.specs.Fields.{AreWords};

use std::alloc::AllocError;
use text_model::{Command, Item};
use type_table::{Shape, TypeInfo};

/// Appends the record of an item that is not blank. Its numbers are at most the greatest of their places, and a weak type has
/// no destructor. Where memory runs out, what was in the buffer stays at its front, and behind it may stand a part of the
/// record. That record is read as this item, whatever follows: so no two items have one record, and none is the front of
/// another. (The form is this project's own.)
pub fn encode_item(item: &Item, out: &mut Vec<u8>) -> Result<(), AllocError>
    requires { HasLine item.now }
    ensures ok { OnOk result (out.new.items ≡ out.old.items ++ item_record item.now) }
    ensures reads { (rest : List ℕ) → record_at (item_record item.now ++ rest) ≡ Ok (item.now, rest) }
    ensures err { OnErr result (Extends out.old.items out.new.items) }
{
    match item {
        Item::Blank => unreachable!(),
        Item::Setting { name, value } => push_record(1, &[u64::from(*name), *value], out),
        Item::TypeDef { id, info } => push_type(*id, *info, out),
        Item::Command(command) => push_object_command(command, out),
    }
}

/// Appends the record of a type.
fn push_type(id: u16, info: TypeInfo, out: &mut Vec<u8>) -> Result<(), AllocError>
    ensures ok { OnOk result (out.new.items ≡ out.old.items ++ fields_bytes (type_fields id info.shape info.destructor)) }
    ensures sized { AreWords (type_fields id info.shape info.destructor) }
    ensures err { OnErr result (Extends out.old.items out.new.items) }
{
    let destructor = u64::from(info.destructor);
    match info.shape {
        Shape::Fixed { ints, refs } => {
            push_record(2, &[id.into(), ints.into(), refs.into(), destructor], out)
        }
        Shape::IntArray => push_record(3, &[id.into(), destructor], out),
        Shape::RefArray => push_record(4, &[id.into(), destructor], out),
        Shape::Weak => push_record(5, &[id.into()], out),
    }
}

/// Appends the record of a command.
#[tactic(auto, unfolding(text_model::specs::Binary::command_fields))]
fn push_object_command(command: &Command, out: &mut Vec<u8>) -> Result<(), AllocError>
    ensures ok { OnOk result (out.new.items ≡ out.old.items ++ fields_bytes (command_fields command.now)) }
    ensures sized { AreWords (command_fields command.now) }
    ensures err { OnErr result (Extends out.old.items out.new.items) }
{
    match *command {
        Command::NewFixed { root, type_id } => {
            push_record(16, &[root.into(), type_id.into()], out)
        }
        Command::NewArray { root, type_id, len } => {
            push_record(17, &[root.into(), type_id.into(), len], out)
        }
        Command::NewWeak {
            root,
            type_id,
            target,
        } => { push_record(18, &[root.into(), type_id.into(), target.into()], out) }
        Command::Put { root, item, value } => push_record(19, &[root.into(), item, value], out),
        Command::Get { root, item } => push_record(20, &[root.into(), item], out),
        Command::Link { root, item, from } => {
            push_record(21, &[root.into(), item, from.into()], out)
        }
        Command::Load { to, root, item } => {
            push_record(22, &[to.into(), root.into(), item], out)
        }
        Command::CopyRefs {
            root,
            item,
            from,
            from_item,
            count,
        } => {
            let numbers = [root.into(), item, from.into(), from_item, count];
            push_record(23, &numbers, out)
        }
        _ => push_slot_command(command, out),
    }
}

/// Appends the record of a command that is not on objects and their items.
#[tactic(auto, unfolding(text_model::specs::Binary::command_fields))]
fn push_slot_command(command: &Command, out: &mut Vec<u8>) -> Result<(), AllocError>
    requires { is_object_command command.now ≡ false }
    ensures ok { OnOk result (out.new.items ≡ out.old.items ++ fields_bytes (command_fields command.now)) }
    ensures sized { AreWords (command_fields command.now) }
    ensures err { OnErr result (Extends out.old.items out.new.items) }
{
    match *command {
        Command::MoveRoot { to, from } => push_record(24, &[to.into(), from.into()], out),
        Command::DropRoot { root } => push_record(25, &[root.into()], out),
        Command::Same { a, b } => push_record(26, &[a.into(), b.into()], out),
        Command::Ident { root } => push_record(27, &[root.into()], out),
        Command::Hash { root } => push_record(28, &[root.into()], out),
        Command::Place { root } => push_record(29, &[root.into()], out),
        Command::Pin { root } => push_record(30, &[root.into()], out),
        Command::Unpin { root } => push_record(31, &[root.into()], out),
        Command::Deref { to, root } => push_record(32, &[to.into(), root.into()], out),
        Command::Register { root, queue } => push_record(33, &[root.into(), queue], out),
        Command::NextFinal { to, queue } => push_record(34, &[to.into(), queue], out),
        _ => push_structure_command(command, out),
    }
}

/// Appends the record of a command on C structures or on the collector.
#[tactic(auto, unfolding(text_model::specs::Binary::command_fields))]
fn push_structure_command(command: &Command, out: &mut Vec<u8>) -> Result<(), AllocError>
    requires { is_structure_command command.now ≡ true }
    ensures ok { OnOk result (out.new.items ≡ out.old.items ++ fields_bytes (command_fields command.now)) }
    ensures sized { AreWords (command_fields command.now) }
    ensures err { OnErr result (Extends out.old.items out.new.items) }
{
    match *command {
        Command::MakeLink {
            p,
            number,
            root,
            light,
            own,
        } => {
            let numbers = [p.into(), number.into(), root.into(), light.into(), own];
            push_record(35, &numbers, out)
        }
        Command::Inc { number } => push_record(36, &[number.into()], out),
        Command::Dec { number } => push_record(37, &[number.into()], out),
        Command::Count { number } => push_record(38, &[number.into()], out),
        Command::FromObj { root } => push_record(39, &[root.into()], out),
        Command::ToObj { to, number } => push_record(40, &[to.into(), number.into()], out),
        Command::NextDead => push_record(41, &[], out),
        Command::Minor => push_record(42, &[], out),
        Command::Step => push_record(43, &[], out),
        Command::Collect => push_record(44, &[], out),
        Command::Used => push_record(45, &[], out),
        _ => unreachable!(),
    }
}

/// Appends a record: its tag, then its numbers.
fn push_record(tag: u8, numbers: &[u64], out: &mut Vec<u8>) -> Result<(), AllocError>
    ensures ok { OnOk result (out.new.items ≡ out.old.items ++ fields_bytes (fields tag numbers.now)) }
    ensures sized { AreWords (fields tag numbers.now) }
    ensures err { OnErr result (Extends out.old.items out.new.items) }
{
    out.extend_from_slice(&[tag])?;
    push_numbers(numbers, out)
}

/// Appends numbers, one after another.
fn push_numbers(numbers: &[u64], out: &mut Vec<u8>) -> Result<(), AllocError>
    ensures ok { OnOk result (out.new.items ≡ out.old.items ++ numbers_bytes numbers.now) }
    ensures err { OnErr result (Extends out.old.items out.new.items) }
{
    for number in numbers {
        push_number(*number, out)?;
    }
    Ok(())
}

/// Appends a number in groups of seven bits, the lowest first. Each byte but the last is 128 more than its group.
fn push_number(number: u64, out: &mut Vec<u8>) -> Result<(), AllocError>
    ensures ok { OnOk result (out.new.items ≡ out.old.items ++ number_bytes number) }
    ensures err { OnErr result (Extends out.old.items out.new.items) }
{
    let mut rest = number;
    while rest >= 128 {
        out.extend_from_slice(&[(rest % 128 + 128) as u8])?;
        rest /= 128;
    }
    out.extend_from_slice(&[rest as u8])
}
