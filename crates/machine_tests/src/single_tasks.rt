//! The steps of one task alone.
ghost use Rattle.std.specs.Prelude.{IfOk};
ghost use Rattle.machine_tasks.specs.Fits.{FramesFit};

use crate::programs::{SENDS_FIVE, is_first, program};
use crate::rows::is_so;
use chan_base::{Memory, Number};
use chan_machine::{Act, Sending, Task, Twins, Value};
use core_programs::Program;
use std::alloc::Global;
use std::test::Fail;

fn print(alloc: Global, program: &Program, task: Task) -> Result<Task, Memory>
    requires { FramesFit program.now.nodes task.frames.items }
    ensures { IfOk result (λ next. FramesFit program.now.nodes next.frames.items) }
{
    match task.act(program) {
        Act::Print(_) => match task.quiet(alloc, program) {
            Ok(next) => Ok(next),
            Err(_) => Err(Memory),
        },
        _ => Err(Memory),
    }
}

fn fork(alloc: Global, program: &Program, task: Task) -> Result<Twins, Memory>
    requires { FramesFit program.now.nodes task.frames.items }
    ensures parent { IfOk result (λ twins. FramesFit program.now.nodes twins.parent.frames.items) }
    ensures child { IfOk result (λ twins. FramesFit program.now.nodes twins.child.frames.items) }
{
    if task.forks() == u32::MAX {
        return Err(Memory);
    }
    match task.act(program) {
        Act::Fork => match task.fork(alloc, program, Number(0)) {
            Ok(twins) => Ok(twins),
            Err(_) => Err(Memory),
        },
        _ => Err(Memory),
    }
}

fn send(alloc: Global, program: &Program, task: Task) -> Result<Sending, Memory>
    requires { FramesFit program.now.nodes task.frames.items }
    ensures { IfOk result (λ sending. FramesFit program.now.nodes sending.task.frames.items) }
{
    match task.act(program) {
        Act::Send => match task.send(alloc, program) {
            Ok(sending) => Ok(sending),
            Err(_) => Err(Memory),
        },
        _ => Err(Memory),
    }
}

fn receive(alloc: Global, program: &Program, task: Task, value: Value) -> Result<Task, Memory>
    requires { FramesFit program.now.nodes task.frames.items }
    ensures { IfOk result (λ next. FramesFit program.now.nodes next.frames.items) }
{
    match task.act(program) {
        Act::Recv => match task.receive(alloc, program, value) {
            Ok(next) => Ok(next),
            Err(_) => Err(Memory),
        },
        _ => Err(Memory),
    }
}

/// `main` after its fork, and the child.
fn first_fork(alloc: Global, program: &Program) -> Result<Twins, Memory>
    ensures parent { IfOk result (λ twins. FramesFit program.now.nodes twins.parent.frames.items) }
    ensures child { IfOk result (λ twins. FramesFit program.now.nodes twins.child.frames.items) }
{
    let main = Task::main(alloc, program)?;
    fork(alloc, program, main)
}

/// Whether the task looks at the channel of the first fork.
fn is_at_first(program: &Program, task: &Task) -> bool
    requires { FramesFit program.now.nodes task.now.frames.items }
{
    match task.channel(program) {
        Some(channel) => is_first(&channel.name),
        None => false,
    }
}

/// Whether `main` begins with one frame.
fn has_one_frame(alloc: Global, program: &Program) -> Result<bool, Memory> {
    let main = Task::main(alloc, program)?;
    Ok(main.name().parts() == 0 && main.frames().len() == 1)
}

fn begins(alloc: Global) -> Result<bool, Memory> {
    let program = program(alloc, SENDS_FIVE)?;
    has_one_frame(alloc, &program)
}

#[test]
fn main_has_one_frame(rt: HostRuntime) -> Result<(), Fail> {
    is_so(&rt, begins(rt.alloc()))
}

fn look_at_first(alloc: Global, program: &Program) -> Result<bool, Memory> {
    let Twins { parent, child } = first_fork(alloc, program)?;
    Ok(is_first(child.name()) && is_at_first(program, &child) && is_at_first(program, &parent))
}

fn fork_shares(alloc: Global) -> Result<bool, Memory> {
    let program = program(alloc, SENDS_FIVE)?;
    look_at_first(alloc, &program)
}

#[test]
fn both_tasks_look_at_the_channel_of_their_fork(rt: HostRuntime) -> Result<(), Fail> {
    is_so(&rt, fork_shares(rt.alloc()))
}

fn sent(alloc: Global, program: &Program, child: Task) -> Result<Value, Memory>
    requires { FramesFit program.now.nodes child.frames.items }
{
    let Sending { value, .. } = send(alloc, program, child)?;
    Ok(value)
}

/// `main` after it received what its child sent.
fn received(alloc: Global, program: &Program) -> Result<Task, Memory>
    ensures { IfOk result (λ task. FramesFit program.now.nodes task.frames.items) }
{
    let Twins { parent, child } = first_fork(alloc, program)?;
    let value = sent(alloc, program, child)?;
    receive(alloc, program, parent, value)
}

/// `main` after it printed what it received.
fn has_printed(alloc: Global, program: &Program) -> Result<Task, Memory>
    ensures { IfOk result (λ task. FramesFit program.now.nodes task.frames.items) }
{
    let main = received(alloc, program)?;
    print(alloc, program, main)
}

fn prints_five(alloc: Global, program: &Program) -> Result<bool, Memory> {
    let main = received(alloc, program)?;
    Ok(matches!(main.act(program), Act::Print(5)))
}

fn ends_then(alloc: Global, program: &Program) -> Result<bool, Memory> {
    let main = has_printed(alloc, program)?;
    Ok(matches!(main.act(program), Act::End))
}

fn prints_and_ends(alloc: Global, program: &Program) -> Result<bool, Memory> {
    Ok(prints_five(alloc, program)? && ends_then(alloc, program)?)
}

fn receives(alloc: Global) -> Result<bool, Memory> {
    let program = program(alloc, SENDS_FIVE)?;
    prints_and_ends(alloc, &program)
}

#[test]
fn main_prints_what_its_child_sent(rt: HostRuntime) -> Result<(), Fail> {
    is_so(&rt, receives(rt.alloc()))
}
