//! Tests of what the collector keeps beside the objects: the nursery's ranges, reserved homes, and the
//! lists of what is gray, weak, remembered, has a finalizer or is linked with C. They stand apart from
//! these libraries, since a crate with tests is proved twice.
#![tactic(auto)]

#[cfg(test)]
mod cards;
#[cfg(test)]
mod finalizers;
#[cfg(test)]
mod gaps;
#[cfg(test)]
mod homes;
#[cfg(test)]
mod links;
#[cfg(test)]
mod marks;
#[cfg(test)]
mod weaks;
