//! The binary form of scripts: items written as records, and records read one after another from a file. A record is a tag
//! of one byte and numbers in groups of seven bits, and each item that is not blank has just one. (The form is this project's own.)
#![tactic(auto)]

mod body;
mod commands;
mod encode;
mod end;
mod fields;
mod items;
mod number;
mod numbers;
mod reader;
mod units;

pub use encode::encode_item;
pub use end::BinEnd;
pub use reader::BinReader;
pub use text_model::{Command, Item};
pub use units::says_its_items;
