//! Laws of generated scripts: no item of one is refused, and the limit refuses no birth.
#![tactic(auto)]
