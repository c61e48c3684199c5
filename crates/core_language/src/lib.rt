//! The core language: programs, values, configurations, steps, rounds and endings, as definitions.
#![tactic(auto)]

ghost use Rattle.core_language.specs.Laws.{HaltsOrSteps};

/// The limits of the machine change no step: it makes the step that has no limits, or halts.
pub fn limits()
    ensures { HaltsOrSteps }
{}
