//! Laws of the parts of a heap that every event cites: what other words leave as it was, and what a change of some parts needs.
#![tactic(auto)]
