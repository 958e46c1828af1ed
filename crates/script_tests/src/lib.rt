//! Tests of the crates that read and write scripts and transcripts, and of those below them: calls
//! over real memory, against texts and records that were worked out by hand, and calls that fail.
#![tactic(auto)]

#[cfg(test)]
mod files;
#[cfg(test)]
mod forms;
#[cfg(test)]
mod generated;
#[cfg(test)]
mod lines;
#[cfg(test)]
mod records;
#[cfg(test)]
mod transcripts;
#[cfg(test)]
mod types;
