//! Scripts and transcripts as data and as texts: the grammar of both.
#![tactic(auto)]

mod command;
mod item;
mod line;
mod range;

pub use command::Command;
pub use item::{BadLine, Item, Reason};
pub use line::{Fate, Line, LinkEnd, Phase};
