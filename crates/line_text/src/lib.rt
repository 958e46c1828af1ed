//! The text of a transcript: its lines printed, and read back. A line has one spelling.
#![tactic(auto)]

mod parse;
mod print;
mod spelling;
mod words;

pub use parse::parse_output_line;
pub use print::{print_line, print_lines};
pub use spelling::texts_of_lines_differ;
