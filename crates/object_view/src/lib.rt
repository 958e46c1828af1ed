//! Objects as they lie in the words of a space: where the parts of each are, and its fields read and written.
#![tactic(auto)]

mod birth;
mod copying;
mod fields;

pub use birth::{Birth, init};
pub use copying::move_refs;
pub use fields::{ObjView, int_at, ref_at, set_int, set_ref, view, words_of};
