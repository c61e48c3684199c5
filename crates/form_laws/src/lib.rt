//! What the form passes find in a program is one.
#![tactic(auto)]

ghost use Rattle.form_laws.specs.Outcomes.{HasOneOutcome};

/// What holds of the outcome of the passes. It does nothing.
pub fn laws()
    ensures { HasOneOutcome }
{}
