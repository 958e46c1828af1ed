//! The top call: words in, a status out. It replays a script over a heap and writes the transcript.
#![tactic(auto)]

mod bench;
mod line;
mod script;
mod tell;
mod top;

pub use top::{Status, run};
