//! Sends, receives and forks of a configuration.
ghost use Rattle.std.specs.Prelude.{◌≡◌, false, Some, None, IsSome, IfOk, OnOk, OnErr};
ghost use Rattle.std.specs.Option.{option_map};
ghost use Rattle.std.specs.Ordering.{nat_cmp};
ghost use Rattle.std.specs.Cmp.Lexicographic.{slice_cmp};
ghost use Rattle.std.specs.BTreeMap.{Updates, get as looked_up};
ghost use Rattle.std.specs.FinMap.{get, insert};
ghost use Rattle.machine_values.specs.Cells.{EndTest};
ghost use Rattle.machine_values.specs.Reading.{value_as};
ghost use Rattle.machine_tasks.specs.declared.tasks.Task.{Task};
ghost use Rattle.machine_tasks.specs.Kinds.{Fork, Send, Recv};
ghost use Rattle.machine_tasks.specs.Sharing.{IsFork, IsRecv, IsSend};
ghost use Rattle.chan_machine.specs.Reading.{config_of, map_of};
ghost use Rattle.chan_machine.specs.Ends.{ConfigPasses, NoNewCells};
ghost use Rattle.chan_machine.specs.Fits.{ActsAt, Fits, ForksAt, RoomAt, is_moved};
ghost use Rattle.chan_machine.specs.Looking.{AnswersAt, AnswersOn};

use crate::configurations::Config;
use crate::events::{Event, Stepped};
use crate::steps::fill;
use chan_base::{Memory, Name, Number};
use core_programs::Program;
use machine_tasks::{Bind, Offspring, Parcel, Slot, StuckWhy, Task, Value};
use std::alloc::Global;
use std::collections::BTreeMap;
use task_tables::TaskTable;

/// The step of a task whose act is a send on the channel.
pub(crate) fn send(
    alloc: Global,
    program: &Program,
    config: &mut Config,
    name: &Name,
    guess: usize,
    channel: Name,
) -> Result<Stepped, Memory>
    requires fits { Fits program.now config.old }
    requires there { IsSome (get config.old.tasks name.now) }
    requires act { ActsAt IsSend program.now config.old.tasks name.now }
    ensures value { IfOk result (λ s. AnswersOn Send program.now config.old config.new name.now channel s) }
    ensures still { IfOk result (λ s. is_moved s ≡ false → config_of program.now config.new ≡ config_of program.now config.old) }
    ensures err { OnErr result (config_of program.now config.new ≡ config_of program.now config.old) }
    ensures fits { Fits program.now config.new }
    ensures ends { OnOk result ((test : EndTest) → ConfigPasses test config.old → ConfigPasses test config.new) }
{
    let Some(task) = config.tasks.get(name, guess) else {
        unreachable!();
    };
    let Parcel { value, next } = task.parcel(alloc, program)?;
    match config.channels.get(&channel) {
        None => Ok(Stepped::Stuck(StuckWhy::NoChannel)),
        Some(Some(_)) => Ok(Stepped::Stuck(StuckWhy::FullChannel)),
        Some(None) => {
            fill(&mut config.channels, &channel, value);
            config.tasks.move_on(program, name, guess, next);
            Ok(Stepped::Moved(Event::Send(channel)))
        }
    }
}

/// The step of a task, with room for one more variable, whose act is a receive on the channel.
pub(crate) fn receive(
    program: &Program,
    config: &mut Config,
    name: &Name,
    guess: usize,
    channel: Name,
) -> Result<Stepped, Memory>
    requires fits { Fits program.now config.old }
    requires there { IsSome (get config.old.tasks name.now) }
    requires act { ActsAt IsRecv program.now config.old.tasks name.now }
    requires room { RoomAt config.old.tasks name.now }
    ensures value { IfOk result (λ s. AnswersOn Recv program.now config.old config.new name.now channel s) }
    ensures still { IfOk result (λ s. is_moved s ≡ false → config_of program.now config.new ≡ config_of program.now config.old) }
    ensures err { OnErr result (config_of program.now config.new ≡ config_of program.now config.old) }
    ensures fits { Fits program.now config.new }
    ensures ends { OnOk result ((test : EndTest) → ConfigPasses test config.old → ConfigPasses test config.new) }
{
    let Some(task) = config.tasks.get(name, guess) else {
        unreachable!();
    };
    let Slot {
        name: variable,
        next,
    } = task.slot(program)?;
    match config.channels.get(&channel) {
        None => Ok(Stepped::Stuck(StuckWhy::NoChannel)),
        Some(None) => Ok(Stepped::Waits(channel)),
        Some(Some(_)) => match config.channels.remove(&channel) {
            Some(Some(value)) => {
                let bind = Bind {
                    name: variable,
                    value,
                };
                config.tasks.accept(program, name, guess, bind, next);
                Ok(Stepped::Moved(Event::Recv(channel)))
            }
            _ => unreachable!(),
        },
    }
}

/// The channel, which is there, as it was before.
fn restore(channels: &mut BTreeMap<Name, Option<Value>>, name: Name, old: Option<Option<Value>>)
    requires { IsSome (looked_up (slice_cmp nat_cmp) channels.old name) }
    ensures { Updates (slice_cmp nat_cmp) channels.old channels.new name old }
{
    match old {
        Some(value) => {
            let _there = channels.insert(name, value);
        }
        None => {
            let _gone = channels.remove(&name);
        }
    }
}

/// Puts a task and an Empty channel of its name, or neither.
fn put_child(
    tasks: &mut TaskTable,
    channels: &mut BTreeMap<Name, Option<Value>>,
    child: Task,
    names: (Name, Name),
) -> Result<(), Memory>
    requires first { names.0 ≡ child.name }
    requires second { names.1 ≡ child.name }
    ensures tasks { OnOk result (tasks.new ≡ insert tasks.old child.name child) }
    ensures channels { OnOk result (Updates (slice_cmp nat_cmp) channels.old channels.new child.name (Some None)) }
    ensures err_tasks { OnErr result (tasks.new ≡ tasks.old) }
    ensures err_channels { OnErr result (map_of (option_map value_as) channels.new ≡ map_of (option_map value_as) channels.old) }
{
    let (channel, spare) = names;
    let old = channels.insert(channel, None)?;
    match tasks.put(child) {
        Ok(()) => Ok(()),
        Err(_) => {
            restore(channels, spare, old);
            Err(Memory)
        }
    }
}

/// The step of a task, with room for one more variable, whose act is a fork.
pub(crate) fn fork(
    alloc: Global,
    program: &Program,
    config: &mut Config,
    name: &Name,
    guess: usize,
) -> Result<Stepped, Memory>
    requires fits { Fits program.now config.old }
    requires there { IsSome (get config.old.tasks name.now) }
    requires act { ActsAt IsFork program.now config.old.tasks name.now }
    requires room { RoomAt config.old.tasks name.now }
    requires forks { ForksAt config.old.tasks name.now }
    ensures value { IfOk result (λ s. AnswersAt Fork program.now config.old config.new name.now s) }
    ensures still { IfOk result (λ s. is_moved s ≡ false → config_of program.now config.new ≡ config_of program.now config.old) }
    ensures err { OnErr result (config_of program.now config.new ≡ config_of program.now config.old) }
    ensures fits { Fits program.now config.new }
    ensures ends { OnOk result (NoNewCells config.old config.new) }
{
    let Some(task) = config.tasks.get(name, guess) else {
        unreachable!();
    };
    let made = task.offspring(alloc, program, Number(0))?;
    let Offspring { child, end, next } = made;
    let channel = child.name().copy()?;
    let spare = child.name().copy()?;
    let event = child.name().copy()?;
    let names = (channel, spare);
    put_child(&mut config.tasks, &mut config.channels, child, names)?;
    config.tasks.branch(program, name, guess, end, next);
    Ok(Stepped::Moved(Event::Fork(event)))
}
