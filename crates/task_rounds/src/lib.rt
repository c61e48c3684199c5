//! What a round does to one task and to one channel, where no task is ever stuck.
#![tactic(auto)]

ghost use Rattle.task_rounds.specs.Ending.{EndsUnstuck, EndsWell};
ghost use Rattle.task_rounds.specs.Laws.{MoversStep, OthersStay, RunsAreTold, ValuesStay};

/// What a round does to tasks and channels. It does nothing.
pub fn rounds()
    ensures told { RunsAreTold }
    ensures steps { MoversStep }
    ensures stays { OthersStay }
    ensures values { ValuesStay }
{}

/// How runs end. It does nothing.
pub fn endings()
    ensures unstuck { EndsUnstuck }
    ensures well { EndsWell }
{}
