//! Laws of births, in the nursery and outside it.
#![tactic(auto)]
