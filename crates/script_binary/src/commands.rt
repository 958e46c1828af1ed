//! The command of a tag and its numbers.

ghost use Rattle.std.specs.Prelude.{◌≡◌, false};
ghost use Rattle.text_model.specs.declared.command.Command.TheVariants.{NewFixed, NewArray, NewWeak, Put, Get, Link, Load};
ghost use Rattle.text_model.specs.Range.{is_above};
ghost use Rattle.text_model.specs.BinaryReading.{command_with, slot_with, structure_with, copy_of, link_of, of_two, of_three, bare};
ghost use Rattle.script_binary.specs.Fields.{one_slot, two_slots};

use crate::numbers::{five_of, none_of, one_of, three_of, truth, two_of};
use script_text::{item_number, own_number, slot_number, type_number};
use text_model::{BadLine, Command};

/// The command of a tag and its numbers.
#[tactic(auto, unfolding(text_model::specs::BinaryReading::command_with))]
pub(crate) fn command_with(tag: u8, numbers: &[u64]) -> Result<Command, BadLine>
    ensures { result ≡ command_with tag numbers.now }
{
    match tag {
        16 => new_fixed(numbers),
        17 => new_array(numbers),
        18 => new_weak(numbers),
        19 => put(numbers),
        20 => get(numbers),
        21 => link(numbers),
        22 => load(numbers),
        23 => copy_of(numbers),
        _ => slot_with(tag, numbers),
    }
}

/// `new R T`
#[tactic(auto, unfolding(text_model::specs::Range::is_above))]
fn new_fixed(numbers: &[u64]) -> Result<Command, BadLine>
    ensures { result ≡ of_two NewFixed numbers.now }
{
    let (root, type_id) = two_of(numbers)?;
    let root = slot_number(root)?;
    let type_id = type_number(type_id)?;
    Ok(Command::NewFixed { root, type_id })
}

/// `new R T L`
#[tactic(auto, unfolding(text_model::specs::Range::is_above))]
fn new_array(numbers: &[u64]) -> Result<Command, BadLine>
    ensures { result ≡ of_three NewArray numbers.now }
{
    let (root, type_id, len) = three_of(numbers)?;
    let root = slot_number(root)?;
    let type_id = type_number(type_id)?;
    let len = item_number(len)?;
    Ok(Command::NewArray { root, type_id, len })
}

/// `weak R T S`
#[tactic(auto, unfolding(text_model::specs::Range::is_above))]
fn new_weak(numbers: &[u64]) -> Result<Command, BadLine>
    ensures { result ≡ of_three NewWeak numbers.now }
{
    let (root, type_id, target) = three_of(numbers)?;
    let root = slot_number(root)?;
    let type_id = type_number(type_id)?;
    let target = slot_number(target)?;
    Ok(Command::NewWeak {
        root,
        type_id,
        target,
    })
}

/// `put R I N`
#[tactic(auto, unfolding(text_model::specs::Range::is_above))]
fn put(numbers: &[u64]) -> Result<Command, BadLine>
    ensures { result ≡ of_three Put numbers.now }
{
    let (root, item, value) = three_of(numbers)?;
    let root = slot_number(root)?;
    let item = item_number(item)?;
    Ok(Command::Put { root, item, value })
}

/// `get R I`
#[tactic(auto, unfolding(text_model::specs::Range::is_above))]
fn get(numbers: &[u64]) -> Result<Command, BadLine>
    ensures { result ≡ of_two Get numbers.now }
{
    let (root, item) = two_of(numbers)?;
    let root = slot_number(root)?;
    let item = item_number(item)?;
    Ok(Command::Get { root, item })
}

/// `link R I S`
#[tactic(auto, unfolding(text_model::specs::Range::is_above))]
fn link(numbers: &[u64]) -> Result<Command, BadLine>
    ensures { result ≡ of_three Link numbers.now }
{
    let (root, item, from) = three_of(numbers)?;
    let root = slot_number(root)?;
    let item = item_number(item)?;
    let from = slot_number(from)?;
    Ok(Command::Link { root, item, from })
}

/// `load D R I`
#[tactic(auto, unfolding(text_model::specs::Range::is_above))]
fn load(numbers: &[u64]) -> Result<Command, BadLine>
    ensures { result ≡ of_three Load numbers.now }
{
    let (to, root, item) = three_of(numbers)?;
    let to = slot_number(to)?;
    let root = slot_number(root)?;
    let item = item_number(item)?;
    Ok(Command::Load { to, root, item })
}

/// `copyrefs R I S J M`
#[tactic(auto, unfolding(text_model::specs::Range::is_above, text_model::specs::BinaryReading::copy_of))]
fn copy_of(numbers: &[u64]) -> Result<Command, BadLine>
    ensures { result ≡ copy_of numbers.now }
{
    let (root, item, from, from_item, count) = five_of(numbers)?;
    let root = slot_number(root)?;
    let item = item_number(item)?;
    let from = slot_number(from)?;
    let from_item = item_number(from_item)?;
    let count = item_number(count)?;
    Ok(Command::CopyRefs {
        root,
        item,
        from,
        from_item,
        count,
    })
}

/// A command on slots, or on what becomes of an object, or on C structures and the collector.
#[tactic(auto, unfolding(text_model::specs::Range::is_above, text_model::specs::BinaryReading::slot_with))]
fn slot_with(tag: u8, numbers: &[u64]) -> Result<Command, BadLine>
    ensures { result ≡ slot_with tag numbers.now }
{
    match tag {
        24 => two_slots(numbers).map(|(to, from)| Command::MoveRoot { to, from }),
        25 => one_slot(numbers).map(|root| Command::DropRoot { root }),
        26 => two_slots(numbers).map(|(a, b)| Command::Same { a, b }),
        27 => one_slot(numbers).map(|root| Command::Ident { root }),
        28 => one_slot(numbers).map(|root| Command::Hash { root }),
        29 => one_slot(numbers).map(|root| Command::Place { root }),
        30 => one_slot(numbers).map(|root| Command::Pin { root }),
        31 => one_slot(numbers).map(|root| Command::Unpin { root }),
        32 => two_slots(numbers).map(|(to, root)| Command::Deref { to, root }),
        33 => slot_and_queue(numbers).map(|(root, queue)| Command::Register { root, queue }),
        34 => slot_and_queue(numbers).map(|(to, queue)| Command::NextFinal { to, queue }),
        _ => structure_with(tag, numbers),
    }
}

/// A command on C structures or on the collector.
#[tactic(auto, unfolding(text_model::specs::Range::is_above, text_model::specs::BinaryReading::structure_with))]
fn structure_with(tag: u8, numbers: &[u64]) -> Result<Command, BadLine>
    ensures { result ≡ structure_with tag numbers.now }
{
    match tag {
        35 => link_of(numbers),
        36 => one_slot(numbers).map(|number| Command::Inc { number }),
        37 => one_slot(numbers).map(|number| Command::Dec { number }),
        38 => one_slot(numbers).map(|number| Command::Count { number }),
        39 => one_slot(numbers).map(|root| Command::FromObj { root }),
        40 => two_slots(numbers).map(|(to, number)| Command::ToObj { to, number }),
        41 => bare(Command::NextDead, numbers),
        42 => bare(Command::Minor, numbers),
        43 => bare(Command::Step, numbers),
        44 => bare(Command::Collect, numbers),
        45 => bare(Command::Used, numbers),
        _ => Err(BadLine::Syntax),
    }
}

/// `plink C R K N` and `olink C R K N`
#[tactic(auto, unfolding(text_model::specs::Range::is_above, text_model::specs::BinaryReading::link_of))]
fn link_of(numbers: &[u64]) -> Result<Command, BadLine>
    ensures { result ≡ link_of numbers.now }
{
    let (p, number, root, light, own) = five_of(numbers)?;
    let p = truth(p)?;
    let light = truth(light)?;
    let number = slot_number(number)?;
    let root = slot_number(root)?;
    let own = own_number(own)?;
    Ok(Command::MakeLink {
        p,
        number,
        root,
        light,
        own,
    })
}

/// A command that has no numbers.
fn bare(command: Command, numbers: &[u64]) -> Result<Command, BadLine>
    requires { is_above command ≡ false }
    ensures { result ≡ bare command numbers.now }
{
    none_of(numbers)?;
    Ok(command)
}

/// One slot or structure.
fn one_slot(numbers: &[u64]) -> Result<u32, BadLine>
    ensures { result ≡ one_slot numbers.now }
{
    let slot = one_of(numbers)?;
    slot_number(slot)
}

/// Two slots or structures.
fn two_slots(numbers: &[u64]) -> Result<(u32, u32), BadLine>
    ensures { result ≡ two_slots numbers.now }
{
    let (a, b) = two_of(numbers)?;
    Ok((slot_number(a)?, slot_number(b)?))
}

/// A slot and a queue.
fn slot_and_queue(numbers: &[u64]) -> Result<(u32, u64), BadLine>
    ensures { result ≡ two_slots numbers.now }
{
    let (slot, queue) = two_slots(numbers)?;
    Ok((slot, u64::from(queue)))
}
