//! Graphs as lists of edges: what keeps a forest, and how few edges one has.
#![tactic(auto)]

/// It does nothing: the lemmas of this crate are for those above it.
pub fn laws() {}
