//! Objects and their words: settings, shapes, and which objects a memory holds. Crates of words and blocks share these definitions.
#![tactic(auto)]

mod kind;
mod settings;
mod structure;

pub use kind::Kind;
pub use settings::Settings;
pub use structure::StructState;
pub use type_table::{Shape, TypeInfo};
