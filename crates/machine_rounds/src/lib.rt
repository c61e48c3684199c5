//! Rounds over the tasks that may move.
#![tactic(auto)]

ghost use Rattle.std.specs.Prelude.{ℕ};
ghost use Rattle.core_language.specs.Programs.{Program};
ghost use Rattle.core_language.specs.Rounds.{turn};
ghost use Rattle.machine_rounds.specs.Ready.{IsLocal};
ghost use Rattle.machine_rounds.specs.Local.{moves_in, looks_at, changes, touches};

/// A turn alters only its own task, the task that it forks, and the channel at which it looks or
/// which it makes.
pub fn turns()
    ensures local { (program : Program) (time : ℕ) → IsLocal (moves_in program) (turn program time) (looks_at program) (changes program) (touches program) }
{}
