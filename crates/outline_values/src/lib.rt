//! What linear forms and shapes come to where integer variables have values.
#![tactic(auto)]

/// It does nothing: the lemmas of this crate are for those above it.
pub fn laws() {}
