//! A session: the items of a script, one after another, over a heap.
#![tactic(auto)]

mod checks;
mod commands;
mod refusal;
mod session;
mod settings;
mod told;

pub use session::{RunFault, Session};
