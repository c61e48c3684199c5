//! When values have resources, who holds which ends, and when a configuration is good.
#![tactic(auto)]

/// It does nothing: the lemmas of this crate are for those above it.
pub fn laws() {}
