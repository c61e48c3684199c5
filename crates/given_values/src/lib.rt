//! What certificates show, what terms mean, and that values that are given have their resources.
#![tactic(auto)]

/// It does nothing: the lemmas of this crate are for those above it.
pub fn laws() {}
