//! The commands of a generated script, one after another.

ghost use Rattle.std.specs.Prelude.{◌<◌, slice_index_or, ◌≡◌, ◌∷◌, [], MatchOption, IfSome};
ghost use Rattle.text_model.specs.ItemLine.{IsCommandInRange};
ghost use Rattle.text_model.specs.Generated.{filling_commands, next_drawn, drawn_command, generated_commands};

use std::marker::Model;
use text_model::Command;

/// How many commands fill the slots.
const FILLING: u32 = 15;

/// The commands that are still to come of a generated script.
#[derive(Debug, Drop)]
pub(crate) struct Commands {
    /// How many of the commands that fill the slots were given.
    filled: u32,
    /// The number of the sequence that was drawn last.
    drawn: u64,
    /// How many commands are still to be drawn.
    left: u32,
    /// Whether the collection at the end was given.
    collected: bool,
}

impl Model for Commands {
    ghost use Rattle.std.specs.Prelude.{List};
    ghost use Rattle.text_model.specs.declared.command.Command.{Command};
    ghost use Rattle.script_gen.specs.Ahead.{commands_ahead};

    ghost Value = { List Command };

    ghost view = { λ c. commands_ahead c.filled c.drawn c.left c.collected };
}

impl Commands {
    /// All commands of a script with so many drawn ones, of which the sequence begins behind `start`.
    pub(crate) fn new(start: u64, commands: u32) -> Commands
        ensures { result ≡ generated_commands start commands }
    {
        Commands {
            filled: 0,
            drawn: start,
            left: commands,
            collected: false,
        }
    }

    /// The next command, and `None` behind the last. None of its numbers is above the greatest of its place.
    pub(crate) fn next(&mut self) -> Option<Command>
        ensures ahead { MatchOption result ((self.old ≡ []) × (self.new ≡ [])) (λ command. self.old ≡ command ∷ self.new) }
        ensures in_range { IfSome result IsCommandInRange }
    {
        if self.filled < FILLING {
            let command = filling_command(self.filled);
            self.filled += 1;
            return Some(command);
        }
        if self.left > 0 {
            self.left -= 1;
            self.drawn = draw_number(self.drawn);
            return Some(draw_command(self.drawn >> 33));
        }
        if self.collected {
            return None;
        }
        self.collected = true;
        Some(Command::Collect)
    }
}

/// Command number k of those that fill slots 0 to 14: eight objects, four arrays of references, two arrays of whole
/// numbers without items, and a weak object.
fn filling_command(k: u32) -> Command
    requires { k < 15 }
    ensures { result ≡ slice_index_or filling_commands k result }
{
    if k < 8 {
        Command::NewFixed {
            root: k,
            type_id: 1,
        }
    } else if k < 12 {
        Command::NewArray {
            root: k,
            type_id: 2,
            len: 8,
        }
    } else if k < 14 {
        Command::NewArray {
            root: k,
            type_id: 4,
            len: 0,
        }
    } else {
        Command::NewWeak {
            root: k,
            type_id: 3,
            target: 0,
        }
    }
}

/// The number of the sequence behind x.
fn draw_number(x: u64) -> u64
    ensures { result ≡ next_drawn x }
{
    x.wrapping_mul(6_364_136_223_846_793_005)
        .wrapping_add(1_442_695_040_888_963_407)
}

/// The command that the number draws.
#[tactic(auto, unfolding(text_model::specs::Generated::drawn_command))]
fn draw_command(r: u64) -> Command
    ensures { result ≡ drawn_command r }
{
    let a = (r / 16 % 8) as u32;
    let b = (r / 128 % 8) as u32;
    let c = (r / 1024 % 4) as u32;
    let i = r / 4096 % 8;
    match r % 16 {
        0..=3 => Command::NewFixed {
            root: a,
            type_id: 1,
        },
        4 => Command::Put {
            root: a,
            item: 0,
            value: r,
        },
        5 => Command::Get { root: a, item: 0 },
        6..=7 => Command::Link {
            root: a,
            item: i % 2,
            from: b,
        },
        8 => Command::Link {
            root: 8 + c,
            item: i,
            from: a,
        },
        9 => Command::Load {
            to: 15,
            root: a,
            item: i % 2,
        },
        10 => Command::Load {
            to: 15,
            root: 8 + c,
            item: i,
        },
        11 => Command::NewArray {
            root: 8 + c,
            type_id: 2,
            len: 8,
        },
        12 => Command::NewArray {
            root: 12 + c % 2,
            type_id: 4,
            len: i * 100,
        },
        13 => Command::NewWeak {
            root: 14,
            type_id: 3,
            target: a,
        },
        14 => Command::Deref { to: 15, root: 14 },
        _ => Command::Hash { root: a },
    }
}
