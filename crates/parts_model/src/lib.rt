//! The parts of a started heap as plain data, which stores they represent, and what each operation makes of them.
#![tactic(auto)]
