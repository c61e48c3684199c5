//! Where the faults of sends stand, and the spans of core trees.
#![tactic(auto)]

ghost use Rattle.lowered_places.specs.Laws.{KeepsSpans, StandsInTree};

/// What holds of the spans of each core tree, and of the first fault of each first pass. It does nothing.
pub fn laws()
    ensures keeps { KeepsSpans }
    ensures stands { StandsInTree }
{}
