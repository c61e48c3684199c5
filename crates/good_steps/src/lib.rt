//! A step keeps what is good, whatever the typing of places, where its acts fit.
#![tactic(auto)]

/// It does nothing: the lemmas of this crate are for those above it.
pub fn laws() {}
