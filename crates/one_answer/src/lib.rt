//! Whatever the schedule, a run that ends has the answer of the round run.
#![tactic(auto)]

/// It does nothing: the lemmas of this crate are for those above it.
pub fn laws() {}
