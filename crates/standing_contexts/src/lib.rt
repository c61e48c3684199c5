//! Contexts whose integer variables and entries have values: what they grow by, how functions begin in them, and what ends do in them.
#![tactic(auto)]

/// It does nothing: the lemmas of this crate are for those above it.
pub fn laws() {}
