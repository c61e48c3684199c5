//! Tasks and parcels that are known from the round run, and what their calls do.
#![tactic(auto)]

ghost use Rattle.known_tasks.specs.Laws.{GoesOn, KnowsFinished, KnowsForked, KnowsMain, KnowsReceived, KnowsSent, KnowsSilent};

/// What is known stays known, whatever call is made. It does nothing.
pub fn laws()
    ensures main { KnowsMain }
    ensures next { GoesOn }
    ensures silent { KnowsSilent }
    ensures fork { KnowsForked }
    ensures send { KnowsSent }
    ensures receive { KnowsReceived }
    ensures finish { KnowsFinished }
{}
