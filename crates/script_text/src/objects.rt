//! The lines of the commands on objects and their items.

ghost use Rattle.std.specs.Prelude.{◌≡◌, ◌++◌, ◌∷◌, [], OnOk, OnErr};
ghost use Rattle.text_model.specs.declared.command.Command.TheVariants.{NewWeak, Put, Get, Link, Load};
ghost use Rattle.text_model.specs.CommandGrammar.{command_form, new_form, copy_form, with_two, with_three};
ghost use Rattle.text_model.specs.ItemText.{joined, command_words};
ghost use Rattle.text_model.specs.ItemLine.{StoresWord};
ghost use Rattle.script_text.specs.Printing.{Extends};
ghost use Rattle.script_text.specs.Words.{words_in};

use crate::print::print_line;
use crate::ranges::{item_number, slot_number, type_number};
use crate::slots::{parse_slot_command, print_slot_command};
use crate::words::{
    Words, five_numbers, is_keyword, one_number, take_number, three_numbers, two_numbers,
};
use std::alloc::AllocError;
use text_model::{BadLine, Command};

/// The command of a line, by its first word and the words behind it.
#[tactic(auto, unfolding(text_model::specs::CommandGrammar::command_form))]
pub fn parse_command(word: &[u8], words: Words<'_>) -> Result<Command, BadLine>
    ensures { result ≡ command_form word.now (words_in words.entry) }
{
    if is_keyword(word, b"new") {
        parse_new(words)
    } else if is_keyword(word, b"weak") {
        parse_weak(words)
    } else if is_keyword(word, b"put") {
        parse_put(words)
    } else if is_keyword(word, b"get") {
        parse_get(words)
    } else if is_keyword(word, b"link") {
        parse_link(words)
    } else if is_keyword(word, b"load") {
        parse_load(words)
    } else if is_keyword(word, b"copyrefs") {
        parse_copy(words)
    } else {
        parse_slot_command(word, words)
    }
}

/// `new R T` and `new R T L`, behind the first word.
#[tactic(auto, using(crate::proofs::Separated::new_tail_of_text), unfolding(text_model::specs::Range::is_above, text_model::specs::CommandGrammar::new_form))]
fn parse_new(words: Words<'_>) -> Result<Command, BadLine>
    ensures { result ≡ new_form (words_in words.entry) }
{
    let (root, words) = take_number(words)?;
    let (type_id, words) = take_number(words)?;
    if words.rest.is_none() {
        let root = slot_number(root)?;
        let type_id = type_number(type_id)?;
        return Ok(Command::NewFixed { root, type_id });
    }
    let len = one_number(words)?;
    let root = slot_number(root)?;
    let type_id = type_number(type_id)?;
    let len = item_number(len)?;
    Ok(Command::NewArray { root, type_id, len })
}

/// `weak R T S`
#[tactic(auto, unfolding(text_model::specs::Range::is_above))]
fn parse_weak(words: Words<'_>) -> Result<Command, BadLine>
    ensures { result ≡ with_three NewWeak (words_in words.entry) }
{
    let (root, type_id, target) = three_numbers(words)?;
    let root = slot_number(root)?;
    let type_id = type_number(type_id)?;
    let target = slot_number(target)?;
    Ok(Command::NewWeak {
        root,
        type_id,
        target,
    })
}

/// `put R I N`
#[tactic(auto, unfolding(text_model::specs::Range::is_above))]
fn parse_put(words: Words<'_>) -> Result<Command, BadLine>
    ensures { result ≡ with_three Put (words_in words.entry) }
{
    let (root, item, value) = three_numbers(words)?;
    let root = slot_number(root)?;
    let item = item_number(item)?;
    Ok(Command::Put { root, item, value })
}

/// `get R I`
#[tactic(auto, unfolding(text_model::specs::Range::is_above))]
fn parse_get(words: Words<'_>) -> Result<Command, BadLine>
    ensures { result ≡ with_two Get (words_in words.entry) }
{
    let (root, item) = two_numbers(words)?;
    let root = slot_number(root)?;
    let item = item_number(item)?;
    Ok(Command::Get { root, item })
}

/// `link R I S`
#[tactic(auto, unfolding(text_model::specs::Range::is_above))]
fn parse_link(words: Words<'_>) -> Result<Command, BadLine>
    ensures { result ≡ with_three Link (words_in words.entry) }
{
    let (root, item, from) = three_numbers(words)?;
    let root = slot_number(root)?;
    let item = item_number(item)?;
    let from = slot_number(from)?;
    Ok(Command::Link { root, item, from })
}

/// `load D R I`
#[tactic(auto, unfolding(text_model::specs::Range::is_above))]
fn parse_load(words: Words<'_>) -> Result<Command, BadLine>
    ensures { result ≡ with_three Load (words_in words.entry) }
{
    let (to, root, item) = three_numbers(words)?;
    let to = slot_number(to)?;
    let root = slot_number(root)?;
    let item = item_number(item)?;
    Ok(Command::Load { to, root, item })
}

/// `copyrefs R I S J M`
#[tactic(auto, unfolding(text_model::specs::Range::is_above, text_model::specs::CommandGrammar::copy_form))]
fn parse_copy(words: Words<'_>) -> Result<Command, BadLine>
    ensures { result ≡ copy_form (words_in words.entry) }
{
    let (root, item, from, from_item, count) = five_numbers(words)?;
    let root = slot_number(root)?;
    let item = item_number(item)?;
    let from = slot_number(from)?;
    let from_item = item_number(from_item)?;
    let count = item_number(count)?;
    Ok(Command::CopyRefs {
        root,
        item,
        from,
        from_item,
        count,
    })
}

/// Appends the line of a command, with LF.
#[tactic(auto, unfolding(text_model::specs::ItemText::command_words))]
pub fn print_object_command(command: &Command, out: &mut Vec<u8>) -> Result<(), AllocError>
    ensures ok { OnOk result (out.new.items ≡ out.old.items ++ (joined (command_words command.now) ++ 10 ∷ [])) }
    ensures stored { StoresWord command.now }
    ensures err { OnErr result (Extends out.old.items out.new.items) }
{
    match *command {
        Command::NewFixed { root, type_id } => {
            print_line(b"new", &[root.into(), type_id.into()], out)
        }
        Command::NewArray { root, type_id, len } => {
            print_line(b"new", &[root.into(), type_id.into(), len], out)
        }
        Command::NewWeak {
            root,
            type_id,
            target,
        } => { print_line(b"weak", &[root.into(), type_id.into(), target.into()], out) }
        Command::Put { root, item, value } => print_line(b"put", &[root.into(), item, value], out),
        Command::Get { root, item } => print_line(b"get", &[root.into(), item], out),
        Command::Link { root, item, from } => {
            print_line(b"link", &[root.into(), item, from.into()], out)
        }
        Command::Load { to, root, item } => {
            print_line(b"load", &[to.into(), root.into(), item], out)
        }
        Command::CopyRefs {
            root,
            item,
            from,
            from_item,
            count,
        } => {
            let numbers = [root.into(), item, from.into(), from_item, count];
            print_line(b"copyrefs", &numbers, out)
        }
        _ => print_slot_command(command, out),
    }
}
