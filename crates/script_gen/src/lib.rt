//! Generated scripts: the items of one, taken one after another, and its text. The commands are drawn by a linear
//! congruential sequence. (The scripts are this project's own.)
#![tactic(auto)]

mod commands;
mod items;
mod script;

pub use items::Generator;
pub use script::generate;
