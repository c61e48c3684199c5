//! A program of form has what soundness asks of programs beside their outlines, and so where it is outlined its runs are sound.
#![tactic(auto)]

ghost use Rattle.form_soundness.specs.Laws.{FormIsFormed, SomeHasForm};
ghost use Rattle.form_soundness.specs.Runs.{FormIsSafe, FormIsLive, FormIsForest, FormHasOneAnswer};

/// What the form of a program gives. It does nothing.
pub fn laws()
    ensures formed { FormIsFormed }
    ensures some { SomeHasForm }
    ensures safe { FormIsSafe }
    ensures live { FormIsLive }
    ensures forest { FormIsForest }
    ensures answer { FormHasOneAnswer }
{}
