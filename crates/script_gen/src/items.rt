//! The items of a generated script, one after another.

ghost use Rattle.std.specs.Prelude.{◌<◌, slice_index_or, ◌≡◌, ◌∷◌, [], MatchOption, IfSome};
ghost use Rattle.text_model.specs.ItemLine.{HasLine};
ghost use Rattle.text_model.specs.Generated.{generated_header, generated_items};

use crate::commands::Commands;
use std::marker::Model;
use text_model::Item;
use type_table::{Shape, TypeInfo};

/// How many settings and types a script has.
const HEADER: u8 = 5;

/// A generated script that is given item by item. It is seen as the items that are still to come, and does not allocate.
#[derive(Debug, Drop)]
pub struct Generator {
    /// How many of the settings and types were given.
    given: u8,
    commands: Commands,
}

impl Model for Generator {
    ghost use Rattle.std.specs.Prelude.{List};
    ghost use Rattle.text_model.specs.declared.item.Item.{Item};
    ghost use Rattle.script_gen.specs.Ahead.{items_ahead};

    ghost Value = { List Item };

    ghost view = { λ g. items_ahead g.given g.commands };
}

impl Generator {
    /// The items of a script with so many drawn commands, of which the sequence begins behind `start`: those whose text
    /// `generate` writes.
    pub fn new(start: u64, commands: u32) -> Generator
        ensures { result ≡ generated_items start commands }
    {
        Generator {
            given: 0,
            commands: Commands::new(start, commands),
        }
    }

    /// The next item, and `None` behind the last. It has a line, so none of its numbers is above the greatest of its place.
    pub fn next(&mut self) -> Option<Item>
        ensures ahead { MatchOption result ((self.old ≡ []) × (self.new ≡ [])) (λ item. self.old ≡ item ∷ self.new) }
        ensures lined { IfSome result HasLine }
    {
        if self.given < HEADER {
            let item = header_item(self.given);
            self.given += 1;
            return Some(item);
        }
        let command = self.commands.next()?;
        Some(Item::Command(command))
    }
}

/// Item k of the settings and types: sixteen root slots, and a type of each shape.
fn header_item(k: u8) -> Item
    requires { k < 5 }
    ensures { result ≡ slice_index_or generated_header k result }
{
    let shape = match k {
        0 => return Item::Setting {
            name: 11,
            value: 16,
        },
        1 => Shape::Fixed { ints: 1, refs: 2 },
        2 => Shape::RefArray,
        3 => Shape::Weak,
        _ => Shape::IntArray,
    };
    let info = TypeInfo {
        shape,
        destructor: false,
    };
    Item::TypeDef {
        id: u16::from(k),
        info,
    }
}
