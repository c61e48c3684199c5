//! The ends that tasks and channels hold, as edges of a graph, and the tasks that wait: definitions and laws.
#![tactic(auto)]

ghost use Rattle.held_ends.specs.Laws.{WaitsWithinAny};

/// Limits change no task that waits.
pub fn laws()
    ensures { WaitsWithinAny }
{}
