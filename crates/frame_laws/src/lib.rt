//! In the runs of a program that is well formed, frames have the values that they need.
#![tactic(auto)]

ghost use Rattle.frame_laws.specs.Laws.{CallsFindFunctions, FitsAfterSteps, FitsInRuns, FitsItsStart};

/// What holds of the frames of each run. It does nothing.
pub fn laws()
    ensures starts { FitsItsStart }
    ensures keeps { FitsAfterSteps }
    ensures runs { FitsInRuns }
    ensures finds { CallsFindFunctions }
{}
