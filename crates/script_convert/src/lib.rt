//! A script of either form: it is read unit by unit, and written in the other form, each item that is not blank as its record or as
//! its line. (This project's own.)
#![tactic(auto)]

mod end;
mod form;
mod reader;
mod write;

pub use end::ConvertEnd;
pub use form::convert;
pub use reader::{ScriptReader, UnitEnd};
pub use write::write_all;
