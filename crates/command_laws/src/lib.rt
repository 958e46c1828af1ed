//! Laws of the commands that bear nothing: each leads from parts that stand for a store to parts that stand for the store after it.
#![tactic(auto)]
