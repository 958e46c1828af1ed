//! Type descriptors: what the objects of a type have, and a table from type ids to them.
#![tactic(auto)]

mod info;
mod table;

pub use info::{Shape, TypeInfo, words};
pub use table::{MAX_TYPES, TypeFault, TypeTable};
