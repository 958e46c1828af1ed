//! Tests of the libraries below the collector's lists: the words of headers and objects, where blocks
//! come to lie, and what a sweep frees. They stand apart from these libraries, since a crate with tests
//! is proved twice.
#![tactic(auto)]

#[cfg(test)]
mod headers;
#[cfg(test)]
mod large_blocks;
#[cfg(test)]
mod old_blocks;
#[cfg(test)]
mod pages;
#[cfg(test)]
mod spaces;
#[cfg(test)]
mod sweeps;
#[cfg(test)]
mod views;
