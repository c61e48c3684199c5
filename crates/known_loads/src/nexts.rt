//! What a known task does next.
ghost use Rattle.std.specs.Prelude.{◌≡◌, ℕ, Some};
ghost use Rattle.core_language.specs.Names.{Name};
ghost use Rattle.core_language.specs.Acts.{channel_in};
ghost use Rattle.cell_rules.specs.Lists.{In};
ghost use Rattle.machine_tasks.specs.Reading.{act_in};
ghost use Rattle.machine_tasks.specs.Steps.{FitsTask};
ghost use Rattle.known_tasks.specs.Nexts.{Next as AnyNext, next};
ghost use Rattle.known_loads.specs.Ends.{task_ends};
ghost use Rattle.known_loads.specs.Following.{IsNext};
ghost use Rattle.known_loads.specs.Reading.{known_of};

use crate::states::State;
use chan_base::Number;
use core_programs::Program;
use machine_tasks::{Act, Channel, Halt};

/// The next step of a task. A print is Silent; a send and a receive tell the number of the channel's
/// cell; Spent is a task that has come to the limit of rounds.
#[derive(Drop)]
pub enum Next {
    Silent,
    Fork,
    Send(Number),
    Recv(Number),
    End,
    Halt(Halt),
    Spent,
}

impl State {
    /// The channel at which the next step looks.
    pub(crate) fn channel(&self, program: &Program) -> &Channel
        requires fits { FitsTask program.now self.now.task }
        requires some { (c : Name) × (channel_in (act_in program.now self.now.task) ≡ Some c) }
        ensures name { channel_in (act_in program.now self.now.task) ≡ Some result.now.name }
        ensures end { In (result.now.cell.0, result.now.name) (task_ends self.now.task) }
    {
        match self.task.channel(program) {
            Some(channel) => channel,
            None => unreachable!(),
        }
    }

    /// What the task does next.
    pub(crate) fn next(&self, program: &Program) -> Next
        requires fits { FitsTask program.now self.now.task }
        requires some { (n : AnyNext) × (next (known_of (program.now, self.now)) ≡ Some n) }
        ensures { IsNext (program.now, self.now) result }
    {
        if self.time == self.limit {
            return Next::Spent;
        }
        match self.task.act(program) {
            Act::Silent | Act::Print(_) => Next::Silent,
            Act::Fork => Next::Fork,
            Act::Send => Next::Send(self.channel(program).cell),
            Act::Recv => Next::Recv(self.channel(program).cell),
            Act::End => Next::End,
            Act::Halts(why) => Next::Halt(why),
            Act::Ended | Act::Stuck(_) => unreachable!(),
        }
    }
}
