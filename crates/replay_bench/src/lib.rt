//! A generated script, done over a heap without writing its transcript, and a summary of that transcript.
#![tactic(auto)]

mod items;
mod summary;
mod tally;
mod top;

pub use top::{BenchEnd, bench};
