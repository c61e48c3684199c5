//! What known tasks and parcels make together, when they are complete and at rest.
#![tactic(auto)]

ghost use Rattle.gathered_runs.specs.Closing.{ClosedAreComplete};
ghost use Rattle.gathered_runs.specs.Driving.{FinishesAlone, MovesCount, MovesEnd, MovesKeep, MovesOrRests, RestsAtTheRun, StartsComplete};
ghost use Rattle.gathered_runs.specs.Gathered.{GathersTheRun, MakesTheRun};

/// What lists that are complete and at rest make is the run. It does nothing.
pub fn rest()
    ensures gathers { GathersTheRun }
    ensures makes { MakesTheRun }
{}

/// One hand that moves tasks until they rest comes to the run. It does nothing.
pub fn drive()
    ensures starts { StartsComplete }
    ensures keeps { MovesKeep }
    ensures ends { MovesEnd }
    ensures counts { MovesCount }
    ensures moves { MovesOrRests }
    ensures finishes { FinishesAlone }
    ensures rests { RestsAtTheRun }
{}

/// What closed cells hold is complete. It does nothing.
pub fn close()
    ensures { ClosedAreComplete }
{}
