//! The tasks of a configuration.
ghost use Rattle.std.specs.Prelude.{◌≡◌, IfOk};
ghost use Rattle.std.specs.Option.{option_map};
ghost use Rattle.std.specs.Ordering.{nat_cmp};
ghost use Rattle.std.specs.Cmp.Lexicographic.{slice_cmp};
ghost use Rattle.std.specs.FinMap.{keys};
ghost use Rattle.core_programs.specs.declared.nodes.Parts.{Parts};
ghost use Rattle.task_tables.specs.Tables.{looked_up};
ghost use Rattle.chan_machine.specs.Reading.{config_of};

use crate::configurations::Config;
use chan_base::{Memory, Name, Names};
use machine_tasks::Frames;
use std::alloc::Global;

impl Config {
    /// The frames of the task, where one with this name was made.
    pub fn frames(&self, task: &Name) -> Option<&Frames>
        ensures { option_map (λ frames. frames.now) result ≡ option_map (λ t. t.frames) (looked_up (slice_cmp nat_cmp) self.now.tasks task.now) }
    {
        match self.tasks.get(task, 0) {
            Some(task) => Some(task.frames()),
            None => None,
        }
    }

    /// The names of the tasks in order, ended ones too.
    pub fn tasks(&self, alloc: Global) -> Result<Names, Memory>
        ensures { IfOk result (λ names. (program : Parts) → names ≡ keys (config_of program self.now).tasks) }
    {
        let names = self.tasks.names(alloc)?;
        Ok(names)
    }
}
