//! Tests of the top call: runs over files and streams in memory, and the texts that they write. They stand apart from
//! replay_top, since a crate with tests is proved twice.
#![tactic(auto)]

#[cfg(test)]
mod collections;
#[cfg(test)]
mod faults;
#[cfg(test)]
mod rows;
#[cfg(test)]
mod words;
