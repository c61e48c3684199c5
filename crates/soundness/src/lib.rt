//! What holds of the runs of outlined programs: no task is ever stuck, and some task can go on until all have ended.
#![tactic(auto)]

ghost use Rattle.soundness.specs.Laws.{SomeProgramHolds, FormedStartIsGood, FormedStepsKeepGood, FormedNeverStuck, FormedReachedIsForest, FormedGoodIsLive, FormedAlwaysLive, FormedStepsCommute, FormedOneAnswer, FormedRoundsEndWell};

/// The laws of outlined programs. It does nothing.
pub fn laws()
    ensures some { SomeProgramHolds }
    ensures starts { FormedStartIsGood }
    ensures keeps { FormedStepsKeepGood }
    ensures safe { FormedNeverStuck }
    ensures forest { FormedReachedIsForest }
    ensures goes_on { FormedGoodIsLive }
    ensures live { FormedAlwaysLive }
    ensures commutes { FormedStepsCommute }
    ensures answer { FormedOneAnswer }
    ensures ends { FormedRoundsEndWell }
{}
