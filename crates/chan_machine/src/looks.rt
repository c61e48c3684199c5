//! What a step would answer, whether it moves, and at which channel it looks.
ghost use Rattle.std.specs.Prelude.{◌≡◌, true, Some, IfOk};
ghost use Rattle.std.specs.Option.{option_map};
ghost use Rattle.std.specs.Ordering.{nat_cmp};
ghost use Rattle.std.specs.Cmp.Lexicographic.{slice_cmp};
ghost use Rattle.std.specs.BTreeMap.{get as looked_up};
ghost use Rattle.core_language.specs.Names.{Name as NameOf};
ghost use Rattle.core_language.specs.Acts.{channel_in};
ghost use Rattle.core_language.specs.Configurations.{Config as ConfigOf};
ghost use Rattle.core_language.specs.Steps.{Moves, Print, machine_step};
ghost use Rattle.core_language.specs.Rounds.{moves};
ghost use Rattle.core_programs.specs.Bodies.{program_of};
ghost use Rattle.machine_rounds.specs.Local.{act_in};
ghost use Rattle.machine_tasks.specs.Kinds.{Send, Recv, kind_as};
ghost use Rattle.machine_tasks.specs.Fits.{FramesFit};
ghost use Rattle.machine_tasks.specs.Reading.{act_in as task_act};
ghost use Rattle.chan_machine.specs.Fits.{Fits, is_moved};
ghost use Rattle.chan_machine.specs.Looking.{Answers, AnswersAlone};
ghost use Rattle.chan_machine.specs.Reading.{config_of, step_of};
ghost use Rattle.chan_machine.specs.Turning.{moves_with};

use crate::configurations::Config;
use crate::events::{Event, Stepped};
use chan_base::{Memory, Name, Number};
use core_programs::Program;
use machine_tasks::{Act, Channel, StuckWhy, Task, Value};
use std::alloc::Global;
use std::collections::BTreeMap;

/// What a send on the channel would answer.
fn look_send(channels: &BTreeMap<Name, Option<Value>>, channel: &Channel) -> Result<Stepped, Memory>
    ensures { IfOk result (λ s. AnswersAlone Send channels.now channel.now.name s) }
{
    match channels.get(&channel.name) {
        Some(None) => {
            let name = channel.name.copy()?;
            Ok(Stepped::Moved(Event::Send(name)))
        }
        Some(Some(_)) => Ok(Stepped::Stuck(StuckWhy::FullChannel)),
        None => Ok(Stepped::Stuck(StuckWhy::NoChannel)),
    }
}

/// What a receive on the channel would answer.
fn look_receive(
    channels: &BTreeMap<Name, Option<Value>>,
    channel: &Channel,
) -> Result<Stepped, Memory>
    ensures { IfOk result (λ s. AnswersAlone Recv channels.now channel.now.name s) }
{
    let name = channel.name.copy()?;
    match channels.get(&channel.name) {
        Some(Some(_)) => Ok(Stepped::Moved(Event::Recv(name))),
        Some(None) => Ok(Stepped::Waits(name)),
        None => Ok(Stepped::Stuck(StuckWhy::NoChannel)),
    }
}

/// The answer of a step that prints the number.
pub(crate) fn printed(number: i128) -> Stepped
    ensures shows { (C : ConfigOf) → step_of C result ≡ Moves C (Print number) }
    ensures moved { is_moved result ≡ true }
{
    Stepped::Moved(Event::Print(number))
}

/// What `step` would answer. Nothing changes.
pub fn look(
    alloc: Global,
    program: &Program,
    config: &Config,
    name: &Name,
) -> Result<Stepped, Memory>
    requires fits { Fits program.now config.now }
    ensures { IfOk result (λ s. Answers (machine_step (program_of program.now) (config_of program.now config.now) name.now) s) }
{
    let Some(task) = config.tasks.get(name, 0) else {
        return Ok(Stepped::Absent);
    };
    match task.act(program) {
        Act::Silent => Ok(Stepped::Moved(Event::Silent)),
        Act::Print(number) => Ok(printed(number)),
        Act::End => Ok(Stepped::Moved(Event::End)),
        Act::Ended => Ok(Stepped::Ended),
        Act::Halts(why) => Ok(Stepped::Halts(why)),
        Act::Stuck(why) => Ok(Stepped::Stuck(why)),
        Act::Fork => {
            let made = task.offspring(alloc, program, Number(0))?;
            let child = made.child.name().copy()?;
            Ok(Stepped::Moved(Event::Fork(child)))
        }
        Act::Send => match task.channel(program) {
            Some(channel) => look_send(&config.channels, channel),
            None => unreachable!(),
        },
        Act::Recv => match task.channel(program) {
            Some(channel) => look_receive(&config.channels, channel),
            None => unreachable!(),
        },
    }
}

/// Whether a task with this act moves, where its channel has this.
fn passes(act: &Act, found: Option<&Option<Value>>) -> bool
    ensures { result ≡ moves_with (kind_as act.now) (option_map (λ stored. stored.now) found.entry) }
{
    match act {
        Act::Silent | Act::Print(_) | Act::Fork | Act::End => true,
        Act::Send => matches!(found, Some(None)),
        Act::Recv => matches!(found, Some(Some(_))),
        Act::Ended | Act::Halts(_) | Act::Stuck(_) => false,
    }
}

/// What is on the channel at which the task's next act looks.
fn found<'a>(program: &Program, config: &'a Config, task: &Task) -> Option<&'a Option<Value>>
    requires fits { FramesFit program.now.nodes task.now.frames.items }
    ensures { (c : NameOf) → channel_in (task_act program.now task.now) ≡ Some c
        → option_map (λ stored. stored.now) result ≡ looked_up (slice_cmp nat_cmp) config.now.channels c }
{
    match task.channel(program) {
        Some(channel) => config.channels.get(&channel.name),
        None => None,
    }
}

/// Whether the task moves and doesn't halt.
pub(crate) fn can_move(program: &Program, config: &Config, name: &Name, guess: usize) -> bool
    requires fits { Fits program.now config.now }
    ensures { result ≡ moves (program_of program.now) (config_of program.now config.now) name.now }
{
    let Some(task) = config.tasks.get(name, guess) else {
        return false;
    };
    passes(&task.act(program), found(program, config, task))
}

/// The channel at which the task's next act looks.
pub(crate) fn awaited<'a>(
    program: &Program,
    config: &'a Config,
    name: &Name,
    guess: usize,
) -> Option<&'a Name>
    requires fits { Fits program.now config.now }
    ensures { option_map (λ channel. channel.now) result ≡ channel_in (act_in (program_of program.now) (config_of program.now config.now) name.now) }
{
    let Some(task) = config.tasks.get(name, guess) else {
        return None;
    };
    match task.channel(program) {
        Some(channel) => Some(&channel.name),
        None => None,
    }
}
