//! The heap of a script: objects in words, and root slots that lead to them. A file for each family of calls.
#![tactic(auto)]

mod births;
mod collecting;
mod collections;
mod fault;
mod fields;
mod finalizers;
mod found;
mod heap;
mod identity;
mod pinning;
mod slots;
mod structures;
mod tellers;
#[cfg(test)]
mod tests;
mod usage;
mod weak;

pub use fault::HeapFault;
pub use found::{Found, kind_found};
pub use heap::Heap;
pub use rawref_links::Dec;
