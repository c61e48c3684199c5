//! Runs of steps that commute: where one ends, each comes to the same end.
#![tactic(auto)]

/// It does nothing: the lemmas of this crate are for those above it.
pub fn laws() {}
