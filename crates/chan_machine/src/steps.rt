//! Steps of a configuration, by name.
ghost use Rattle.std.specs.Prelude.{◌≡◌, ◌<◌, ◌++◌, ◌∷◌, [], Some, IsSome, IfOk, OnOk, OnErr, ◌⊎◌, true, false};
ghost use Rattle.std.specs.Ordering.{nat_cmp};
ghost use Rattle.std.specs.Cmp.Lexicographic.{slice_cmp};
ghost use Rattle.std.specs.BTreeMap.{Updates, get as looked_up};
ghost use Rattle.std.specs.FinMap.{get};
ghost use Rattle.core_language.specs.Configurations.{start as start_of};
ghost use Rattle.core_language.specs.Names.{Name as NameOf};
ghost use Rattle.core_language.specs.Steps.{machine_step, step as step_without_limits};
ghost use Rattle.core_programs.specs.Bodies.{program_of};
ghost use Rattle.machine_values.specs.Cells.{EndTest};
ghost use Rattle.machine_tasks.specs.declared.tasks.Task.{Task};
ghost use Rattle.machine_tasks.specs.Moving.{IsQuiet, place_after};
ghost use Rattle.machine_tasks.specs.Reading.{act_in};
ghost use Rattle.task_tables.specs.Ends.{NoneNew};
ghost use Rattle.task_tables.specs.Tables.{AreUnmoved, MovesTo};
ghost use Rattle.chan_machine.specs.Reading.{config_of, prints_of, step_of};
ghost use Rattle.chan_machine.specs.Ends.{ConfigPasses, NoNewCells};
ghost use Rattle.chan_machine.specs.Fits.{ActsAt, Fits, ForksAt, RoomAt, TasksFit, IsHalt, is_moved};

use crate::channels::{fork, receive, send};
use crate::configurations::{Config, Put, Puts};
use crate::events::{Event, Stepped};
use crate::looks::printed;
use chan_base::{Memory, Name};
use core_programs::Program;
use machine_tasks::{Act, Task, Value};
use sqlite_items::Items;
use std::alloc::Global;
use std::collections::BTreeMap;
use task_tables::TaskTable;

/// The configuration before the first step.
pub fn start(alloc: Global, program: &Program) -> Result<Config, Memory>
    ensures value { IfOk result (λ config. config_of program.now config ≡ start_of (program_of program.now)) }
    ensures fits { IfOk result (λ config. Fits program.now config) }
    ensures ends { IfOk result (λ config. (test : EndTest) → ConfigPasses test config) }
{
    let main = Task::main(alloc, program)?;
    let mut tasks = TaskTable::new(alloc);
    tasks.put(main)?;
    Ok(Config {
        tasks,
        channels: BTreeMap::new(alloc),
        prints: Items::new(alloc),
    })
}

/// The task with this name makes its step, which prints the number.
pub(crate) fn print(
    alloc: Global,
    program: &Program,
    tasks: &mut TaskTable,
    prints: &mut Puts,
    name: &Name,
    guess: usize,
    number: i128,
) -> Result<(), Memory>
    requires fits { TasksFit program.now tasks.old }
    requires act { ActsAt IsQuiet program.now tasks.old name.now }
    ensures ok { (t : Task) → get tasks.old name.now ≡ Some t
        → OnOk result (MovesTo program.now tasks.old tasks.new name.now (place_after (act_in program.now t)) t.forks) }
    ensures prints { OnOk result (prints_of prints.new ≡ prints_of prints.old ++ (name.now, number) ∷ []) }
    ensures err { OnErr result (AreUnmoved program.now tasks.old tasks.new) }
    ensures unprinted { OnErr result (prints.new ≡ prints.old) }
    ensures fits { TasksFit program.now tasks.new }
    ensures ends { NoneNew tasks.old tasks.new }
{
    let copy = name.copy()?;
    prints.push(Put { name: copy, number })?;
    match tasks.advance(alloc, program, name, guess) {
        Ok(()) => Ok(()),
        Err(_) => {
            let _put = prints.pop();
            Err(Memory)
        }
    }
}

/// The channel is Full with the value from now on.
pub(crate) fn fill(channels: &mut BTreeMap<Name, Option<Value>>, channel: &Name, value: Value)
    requires { IsSome (looked_up (slice_cmp nat_cmp) channels.old channel.now) }
    ensures { Updates (slice_cmp nat_cmp) channels.old channels.new channel.now (Some (Some value)) }
{
    if let Some(slot) = channels.get_mut(channel) {
        *slot = Some(value);
    }
}

/// The next step of the task with this name, which has room for one more variable.
fn make_step(
    alloc: Global,
    program: &Program,
    config: &mut Config,
    name: &Name,
    guess: usize,
) -> Result<Stepped, Memory>
    requires fits { Fits program.now config.old }
    requires room { RoomAt config.old.tasks name.now }
    requires forks { ForksAt config.old.tasks name.now }
    ensures value { IfOk result (λ s. machine_step (program_of program.now) (config_of program.now config.old) name.now
        ≡ step_of (config_of program.now config.new) s) }
    ensures still { IfOk result (λ s. is_moved s ≡ false → config_of program.now config.new ≡ config_of program.now config.old) }
    ensures err { OnErr result (config_of program.now config.new ≡ config_of program.now config.old) }
    ensures fits { Fits program.now config.new }
    ensures ends { OnOk result (NoNewCells config.old config.new) }
{
    let Some(task) = config.tasks.get(name, guess) else {
        return Ok(Stepped::Absent);
    };
    match task.act(program) {
        Act::Silent => {
            config.tasks.advance(alloc, program, name, guess)?;
            Ok(Stepped::Moved(Event::Silent))
        }
        Act::End => {
            config.tasks.advance(alloc, program, name, guess)?;
            Ok(Stepped::Moved(Event::End))
        }
        Act::Print(number) => {
            print(
                alloc,
                program,
                &mut config.tasks,
                &mut config.prints,
                name,
                guess,
                number,
            )?;
            Ok(printed(number))
        }
        Act::Ended => Ok(Stepped::Ended),
        Act::Halts(why) => Ok(Stepped::Halts(why)),
        Act::Stuck(why) => Ok(Stepped::Stuck(why)),
        Act::Fork => fork(alloc, program, config, name, guess),
        Act::Send => match task.channel(program) {
            Some(channel) => {
                let channel = channel.name.copy()?;
                send(alloc, program, config, name, guess, channel)
            }
            None => unreachable!(),
        },
        Act::Recv => match task.channel(program) {
            Some(channel) => {
                let channel = channel.name.copy()?;
                receive(program, config, name, guess, channel)
            }
            None => unreachable!(),
        },
    }
}

/// The next step of the task with this name. The number is tried first in the table of tasks.
pub(crate) fn step_at(
    alloc: Global,
    program: &Program,
    config: &mut Config,
    name: &Name,
    guess: usize,
) -> Result<Stepped, Memory>
    requires fits { Fits program.now config.old }
    requires forks { ForksAt config.old.tasks name.now }
    ensures value { IfOk result (λ s. machine_step (program_of program.now) (config_of program.now config.old) name.now
        ≡ step_of (config_of program.now config.new) s) }
    ensures still { IfOk result (λ s. is_moved s ≡ false → config_of program.now config.new ≡ config_of program.now config.old) }
    ensures err { OnErr result (config_of program.now config.new ≡ config_of program.now config.old) }
    ensures fits { Fits program.now config.new }
    ensures ends { OnOk result (NoNewCells config.old config.new) }
{
    config.tasks.make_room(name, guess)?;
    make_step(alloc, program, config, name, guess)
}

/// Makes the next step of the task with this name, or says why there is none.
pub fn step(
    alloc: Global,
    program: &Program,
    config: &mut Config,
    name: &Name,
) -> Result<Stepped, Memory>
    requires fits { Fits program.now config.old }
    requires forks { ForksAt config.old.tasks name.now }
    ensures value { IfOk result (λ s. machine_step (program_of program.now) (config_of program.now config.old) name.now
        ≡ step_of (config_of program.now config.new) s) }
    ensures limits { IfOk result (λ s. IsHalt s ⊎ (step_without_limits (program_of program.now) (config_of program.now config.old) name.now
        ≡ step_of (config_of program.now config.new) s)) }
    ensures still { IfOk result (λ s. is_moved s ≡ false → config_of program.now config.new ≡ config_of program.now config.old) }
    ensures err { OnErr result (config_of program.now config.new ≡ config_of program.now config.old) }
    ensures fits { Fits program.now config.new }
    ensures ends { OnOk result ((test : EndTest) → ((c : NameOf) → test c 0 ≡ true) → ConfigPasses test config.old → ConfigPasses test config.new) }
{
    step_at(alloc, program, config, name, 0)
}
