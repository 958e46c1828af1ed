//! The lines of a script: read one after another from a file, each as an item, and commands written as lines. A line is
//! read word by word from its front, and each command has one line, which is read as that command.
#![tactic(auto)]

mod bytes;
mod commands;
mod items;
mod numbers;
mod objects;
mod parse;
mod print;
mod ranges;
mod reader;
mod slots;
mod structures;
mod words;

pub use bytes::Bytes;
pub use commands::print_command;
pub use items::print_item;
pub use numbers::parse_number;
pub use parse::parse_line;
pub use ranges::{item_number, own_number, slot_number, type_number};
pub use reader::{LONGEST_LINE, LineReader, ReadEnd};
pub use text_model::{BadLine, Command, Item};
