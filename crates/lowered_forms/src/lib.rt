//! What lowering leaves of forms, and what the first pass shows of sends.
#![tactic(auto)]

ghost use Rattle.lowered_forms.specs.Laws.{DesugarsToCore, PassedFit};

/// What holds of each tree, its core tree and its sends. It does nothing.
pub fn laws()
    ensures core { DesugarsToCore }
    ensures fit { PassedFit }
{}
