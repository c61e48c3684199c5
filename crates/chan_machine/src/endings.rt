//! How a run ends.
ghost use Rattle.std.specs.Prelude.{◌≡◌, ◌&&◌, not, filter, IfOk};
ghost use Rattle.core_language.specs.Configurations.{Config as ConfigOf};
ghost use Rattle.core_language.specs.Endings.{Ending as EndingOf, blocked as blocked_of, ending_of, is_nil, unended as unended_of};
ghost use Rattle.core_language.specs.Rounds.{moves};
ghost use Rattle.core_programs.specs.Bodies.{program_of};
ghost use Rattle.chan_machine.specs.Faulting.{fault_or, first_fault, faulted_or, or_else};
ghost use Rattle.chan_machine.specs.Fits.{Fits};
ghost use Rattle.chan_machine.specs.Reading.{config_of, ending_as, step_of};

use crate::configurations::Config;
use crate::events::{Ending, Stepped};
use crate::looks::{can_move, look};
use chan_base::{Memory, Name, Names};
use core_programs::Program;
use machine_tasks::Halt;
use std::alloc::Global;

/// An ending that the next step of one task brings.
#[derive(Clone, Copy)]
pub(crate) enum Fault {
    Stuck,
    Range,
    Depth,
}

/// The ending that such a step of the task brings.
fn brought(fault: Fault, stepped: Stepped, name: Name) -> Option<Ending>
    ensures { (C : ConfigOf) (other : EndingOf) → fault_or fault name (step_of C stepped) other ≡ or_else result other }
{
    match fault {
        Fault::Stuck => match stepped {
            Stepped::Stuck(why) => Some(Ending::Stuck(name, why)),
            _ => None,
        },
        Fault::Range => match stepped {
            Stepped::Halts(Halt::Range) => Some(Ending::Range(name)),
            _ => None,
        },
        Fault::Depth => match stepped {
            Stepped::Halts(Halt::Depth) => Some(Ending::Depth(name)),
            _ => None,
        },
    }
}

/// The ending of this kind that the first of the tasks brings.
fn first(
    alloc: Global,
    program: &Program,
    config: &Config,
    names: &Names,
    fault: Fault,
) -> Result<Option<Ending>, Memory>
    requires fits { Fits program.now config.now }
    ensures { IfOk result (λ found. (other : EndingOf)
        → first_fault fault (program_of program.now) (config_of program.now config.now) names.now other ≡ or_else found other) }
{
    for name in names.as_slice() {
        let stepped = look(alloc, program, config, name)?;
        let copy = name.copy()?;
        if let Some(ending) = brought(fault, stepped, copy) {
            return Ok(Some(ending));
        }
    }
    Ok(None)
}

/// Whether one of the tasks moves.
fn any_moves(program: &Program, config: &Config, names: &Names) -> bool
    requires fits { Fits program.now config.now }
    ensures { result ≡ not (is_nil (filter (moves (program_of program.now) (config_of program.now config.now)) names.now)) }
{
    for name in names.as_slice() {
        if can_move(program, config, name, 0) {
            return true;
        }
    }
    false
}

/// The tasks that have not ended, in the order of their names.
fn unended(alloc: Global, program: &Program, config: &Config) -> Result<Names, Memory>
    ensures { IfOk result (λ names. names ≡ unended_of (config_of program.now config.now)) }
{
    let names = config.tasks.unended(alloc)?;
    Ok(names)
}

/// The ending that the first stuck task brings; else the first that computes a number out of
/// range; else the first that forks too deep.
fn faulted(
    alloc: Global,
    program: &Program,
    config: &Config,
    names: &Names,
) -> Result<Option<Ending>, Memory>
    requires fits { Fits program.now config.now }
    ensures { IfOk result (λ found. (other : EndingOf)
        → faulted_or (program_of program.now) (config_of program.now config.now) names.now other ≡ or_else found other) }
{
    if let Some(ending) = first(alloc, program, config, names, Fault::Stuck)? {
        return Ok(Some(ending));
    }
    if let Some(ending) = first(alloc, program, config, names, Fault::Range)? {
        return Ok(Some(ending));
    }
    let ending = first(alloc, program, config, names, Fault::Depth)?;
    Ok(ending)
}

fn are_none(tasks: &Names, channels: &Names) -> bool
    ensures { result ≡ (is_nil tasks.now && is_nil channels.now) }
{
    tasks.is_empty() && channels.is_empty()
}

/// The ending where no task moves.
fn blocked(tasks: Names, channels: Names) -> Ending
    ensures { ending_as result ≡ blocked_of tasks channels }
{
    if tasks.is_empty() {
        Ending::Leaked(channels)
    } else {
        Ending::Deadlocked(tasks)
    }
}

/// How a run ends that has come to this configuration.
pub(crate) fn ending(alloc: Global, program: &Program, config: &Config) -> Result<Ending, Memory>
    requires fits { Fits program.now config.now }
    ensures { IfOk result (λ ending. ending_as ending ≡ ending_of (program_of program.now) (config_of program.now config.now)) }
{
    let waiting = unended(alloc, program, config)?;
    let channels = config.channels(alloc)?;
    if are_none(&waiting, &channels) {
        return Ok(Ending::Finished);
    }
    let names = config.tasks(alloc)?;
    if let Some(ending) = faulted(alloc, program, config, &names)? {
        return Ok(ending);
    }
    if any_moves(program, config, &names) {
        return Ok(Ending::Rounds);
    }
    Ok(blocked(waiting, channels))
}
