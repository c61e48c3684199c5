//! Where the refusals of the parser stand.
#![tactic(auto)]

ghost use Rattle.refusal_laws.specs.Places.{IsWithinTheText};

/// What holds of the first fault of the tokens of each text. It does nothing.
pub fn laws()
    ensures within { IsWithinTheText }
{}
