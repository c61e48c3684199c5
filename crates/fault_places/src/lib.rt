//! Where faults of form stand.
#![tactic(auto)]

ghost use Rattle.fault_places.specs.Laws.{SpansStandInText, StandsInParts, StandsInText};

/// What holds of the first fault of form of each program and of each text. It does nothing.
pub fn laws()
    ensures parts { StandsInParts }
    ensures tree { SpansStandInText }
    ensures text { StandsInText }
{}
