//! What becomes of the uses of a configuration at a send, a receive and a fork.
#![tactic(auto)]

/// It does nothing: the lemmas of this crate are for those above it.
pub fn laws() {}
