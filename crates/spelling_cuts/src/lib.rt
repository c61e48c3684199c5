//! Where the spelling of a program is cut into tokens.
#![tactic(auto)]

ghost use Rattle.spelling_cuts.specs.Laws.{IsCutAtItsWords};

/// What holds of the spelling of each program. It does nothing.
pub fn laws()
    ensures cut { IsCutAtItsWords }
{}
