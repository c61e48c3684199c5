//! The forms of an outlined body do what fits the uses of its task.
#![tactic(auto)]

/// It does nothing: the lemmas of this crate are for those above it.
pub fn laws() {}
