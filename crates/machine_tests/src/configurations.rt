//! Configurations of their parts.

use crate::programs::{SENDS_FIVE, program};
use crate::rows::is_so;
use chan_base::{Memory, Name, Names};
use chan_machine::{Config, Put, Puts, Store, Stores, Task, Tasks, Value};
use core_programs::Program;
use sqlite_items::Items;
use std::alloc::Global;
use std::test::Fail;

/// `main` before its first step, alone.
fn one_task(alloc: Global, program: &Program) -> Result<Tasks, Memory> {
    let mut tasks = Items::new(alloc);
    tasks.push(Task::main(alloc, program)?)?;
    Ok(tasks)
}

/// The channel of the second fork of `main`, alone, with a 5 on it.
fn one_channel(alloc: Global) -> Result<Stores, Memory> {
    let name = Name::root().child(alloc, 1)?;
    let value = Some(Value::Int(5));
    let mut channels = Items::new(alloc);
    channels.push(Store { name, value })?;
    Ok(channels)
}

/// A print of 7 by `main`.
fn one_print(alloc: Global) -> Result<Puts, Memory> {
    let name = Name::root();
    let mut prints = Items::new(alloc);
    prints.push(Put { name, number: 7 })?;
    Ok(prints)
}

fn configuration(alloc: Global, program: &Program) -> Result<Config, Memory> {
    let prints = one_print(alloc)?;
    let channels = one_channel(alloc)?;
    let tasks = one_task(alloc, program)?;
    Config::of(alloc, tasks, channels, prints)
}

/// Whether the channel with the first of the names has a 5 on it.
fn holds_five(config: &Config, names: &Names) -> bool {
    match names.get(0) {
        Some(name) => matches!(config.stored(name), Some(Value::Int(5))),
        None => false,
    }
}

fn is_seven(put: &Put) -> bool {
    put.number == 7 && put.name.parts() == 0
}

fn has_channel_and_print(alloc: Global, config: &Config) -> Result<bool, Memory> {
    let channels = config.channels(alloc)?;
    Ok(
        channels.len() == 1
            && holds_five(config, &channels)
            && matches!(config.prints().get(0), Some(put) if is_seven(put)),
    )
}

fn has_task(alloc: Global, config: &Config) -> Result<bool, Memory> {
    let tasks = config.tasks(alloc)?;
    let main = Name::root();
    Ok(tasks.len() == 1 && matches!(config.frames(&main), Some(frames) if frames.len() == 1))
}

fn has_parts(alloc: Global, config: &Config) -> Result<bool, Memory> {
    Ok(has_channel_and_print(alloc, config)? && has_task(alloc, config)?)
}

fn program_has_parts(alloc: Global, program: &Program) -> Result<bool, Memory> {
    let config = configuration(alloc, program)?;
    has_parts(alloc, &config)
}

fn answer(alloc: Global) -> Result<bool, Memory> {
    let program = program(alloc, SENDS_FIVE)?;
    program_has_parts(alloc, &program)
}

#[test]
fn a_configuration_has_its_parts(rt: HostRuntime) -> Result<(), Fail> {
    is_so(&rt, answer(rt.alloc()))
}
