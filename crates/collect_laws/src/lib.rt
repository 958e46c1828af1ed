//! What collections do to the parts of a heap and to each store that they stand for, and its laws: blocks, cycles, and what comes before a birth.
#![tactic(auto)]
