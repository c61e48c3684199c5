//! Steps that concern other tasks: forks, sends and receives.
ghost use Rattle.std.specs.Prelude.{◌≡◌, ◌<◌, suc, [], ◌∷◌, length, IfOk, IfErr};
ghost use Rattle.machine_values.specs.Cells.{End, EndTest};
ghost use Rattle.machine_values.specs.Ends.{ValuePasses, ValuesPass};
ghost use Rattle.machine_values.specs.Reading.{celled_of, value_as};
ghost use Rattle.machine_tasks.specs.Ends.{FramesPass, TaskPasses};
ghost use Rattle.machine_tasks.specs.Fits.{FramesFit};
ghost use Rattle.machine_tasks.specs.Reading.{act_in, place_of, IsTask};
ghost use Rattle.machine_tasks.specs.Moving.{HasRoom, place_with};
ghost use Rattle.machine_tasks.specs.Sharing.{Branches, Forked, IsFork, IsRecv, IsSend, Received, Receives, Sends, Sent};
ghost use Rattle.machine_tasks.specs.Steps.{FitsTask, GoesTo, IsUnmoved, called, place_in};

use crate::entering::enter;
use crate::tasks::{Frames, Task};
use chan_base::{Memory, Name, Number};
use chan_syntax::Ident;
use core_programs::{Node, Program};
use machine_values::{Bind, Channel, Value, Values, make, make_all};
use std::alloc::Global;

/// What a fork makes: the new task, and its parent's end of the new channel with the node at which
/// the parent goes on.
#[derive(Drop)]
pub struct Offspring {
    pub child: Task,
    pub end: Bind,
    pub next: u32,
}

/// What a send puts on the channel, and the node at which the task goes on.
#[derive(Drop)]
pub struct Parcel {
    pub value: Value,
    pub next: u32,
}

/// The variable that a receive binds, and the node at which the task goes on.
#[derive(Drop)]
pub struct Slot {
    pub name: Ident,
    pub next: u32,
}

/// A task after its fork, and the task that the fork made.
#[derive(Drop)]
pub struct Twins {
    pub parent: Task,
    pub child: Task,
}

/// A task with a value, which it has sent, or which it is to receive.
#[derive(Drop)]
pub struct Sending {
    pub task: Task,
    pub value: Value,
}

/// The end of the channel with this name and cell.
fn end_of(name: &Name, cell: Number) -> Result<Value, Memory>
    ensures { IfOk result (λ value. celled_of value ≡ End name.now cell.0) }
{
    let name = name.copy()?;
    Ok(Value::End(Channel { name, cell }))
}

/// The frames of a new task, which begins the function with the end and the values.
fn first_frames(
    alloc: Global,
    program: &Program,
    func: &Ident,
    end: Value,
    values: Values,
) -> Result<Frames, Memory>
    ensures place { IfOk result (λ frames. called program.now func.now (end ∷ values.items) [] ≡ place_of program.now.nodes frames.items) }
    ensures fits { IfOk result (λ frames. FramesFit program.now.nodes frames.items) }
    ensures ends { IfOk result (λ frames. (test : EndTest) → ValuePasses test end → ValuesPass test values.items → FramesPass test frames.items) }
{
    let mut values = values;
    values.insert(0, end)?;
    let mut frames = Vec::new(alloc);
    if let Some(frame) = enter(alloc, program, func, values)? {
        frames.push(frame)?;
    }
    Ok(frames)
}

impl Task {
    /// What the fork of a task makes whose act is Fork.
    pub fn offspring(
        &self,
        alloc: Global,
        program: &Program,
        cell: Number,
    ) -> Result<Offspring, Memory>
        requires fits { FitsTask program.now self.now }
        requires act { IsFork (act_in program.now self.now) }
        ensures { IfOk result (λ made. Branches program.now self.now cell.0 made) }
    {
        let Some(frame) = self.top() else {
            unreachable!();
        };
        let Node::Fork {
            name,
            func,
            values,
            next,
            ..
        } = program.node(frame.node)
        else {
            unreachable!();
        };
        let values = make_all(alloc, frame.binds.as_slice(), values.as_slice())?.unwrap();
        let child = self.name.child(alloc, self.forks)?;
        let end = end_of(&child, cell)?;
        let frames = first_frames(alloc, program, func, end, values)?;
        let value = end_of(&child, cell)?;
        let name = name.copy()?;
        Ok(Offspring {
            child: Task {
                name: child,
                frames,
                forks: 0,
            },
            end: Bind { name, value },
            next: *next,
        })
    }

    /// What a task whose act is Send puts on its channel.
    pub fn parcel(&self, alloc: Global, program: &Program) -> Result<Parcel, Memory>
        requires fits { FitsTask program.now self.now }
        requires act { IsSend (act_in program.now self.now) }
        ensures { IfOk result (λ parcel. Sends program.now self.now parcel) }
    {
        let Some(frame) = self.top() else {
            unreachable!();
        };
        let Node::Send1 { value, next, .. } = program.node(frame.node) else {
            unreachable!();
        };
        let value = make(alloc, frame.binds.as_slice(), value)?.unwrap();
        Ok(Parcel { value, next: *next })
    }

    /// The variable that a task whose act is Recv binds.
    pub fn slot(&self, program: &Program) -> Result<Slot, Memory>
        requires fits { FitsTask program.now self.now }
        requires act { IsRecv (act_in program.now self.now) }
        ensures { IfOk result (λ slot. Receives program.now self.now slot) }
    {
        let Some(frame) = self.top() else {
            unreachable!();
        };
        let Node::Recv1 { pat, next, .. } = program.node(frame.node) else {
            unreachable!();
        };
        let name = pat.name.copy()?;
        Ok(Slot { name, next: *next })
    }

    /// The task, whose top frame has room, goes on with one more variable.
    pub fn accept(&mut self, program: &Program, bind: Bind, next: u32)
        requires next { next < length program.now.nodes }
        requires room { HasRoom self.old.frames.items 1 }
        requires fits { FitsTask program.now self.old }
        ensures goes { GoesTo program.now self.old self.new
            (place_with program.now.nodes bind.name (value_as bind.value) next (place_in program.now self.old)) }
        ensures ends { (test : EndTest) → ValuePasses test bind.value → TaskPasses test self.old → TaskPasses test self.new }
    {
        self.bind(bind);
        self.go_on(program, next);
    }

    /// The task, whose top frame has room, goes on after its fork.
    pub fn branch(&mut self, program: &Program, end: Bind, next: u32)
        requires next { next < length program.now.nodes }
        requires room { HasRoom self.old.frames.items 1 }
        requires forks { self.old.forks < 4294967295 }
        requires fits { FitsTask program.now self.old }
        ensures goes { IsTask program.now self.new self.old.name (suc self.old.forks)
            (place_with program.now.nodes end.name (value_as end.value) next (place_in program.now self.old)) }
        ensures ends { (test : EndTest) → ValuePasses test end.value → TaskPasses test self.old → TaskPasses test self.new }
    {
        self.forks += 1;
        self.accept(program, end, next);
    }

    /// Makes the step of a task whose act is Fork. The end that each of the two tasks gets has this
    /// cell.
    pub fn fork(mut self, alloc: Global, program: &Program, cell: Number) -> Result<Twins, Task>
        requires fits { FitsTask program.now self }
        requires act { IsFork (act_in program.now self) }
        requires forks { self.forks < 4294967295 }
        ensures ok { IfOk result (λ twins. Forked program.now self cell.0 twins) }
        ensures err { IfErr result (λ t. IsUnmoved self t) }
    {
        if self.make_room(1).is_err() {
            return Err(self);
        }
        match self.offspring(alloc, program, cell) {
            Ok(made) => {
                let Offspring { child, end, next } = made;
                self.branch(program, end, next);
                Ok(Twins {
                    parent: self,
                    child,
                })
            }
            Err(_) => Err(self),
        }
    }

    /// Makes the step of a task whose act is Send, and gives the value that it sends.
    pub fn send(mut self, alloc: Global, program: &Program) -> Result<Sending, Task>
        requires fits { FitsTask program.now self }
        requires act { IsSend (act_in program.now self) }
        ensures ok { IfOk result (λ sending. Sent program.now self sending) }
        ensures err { IfErr result (λ t. IsUnmoved self t) }
    {
        match self.parcel(alloc, program) {
            Ok(parcel) => {
                let Parcel { value, next } = parcel;
                self.go_on(program, next);
                Ok(Sending { task: self, value })
            }
            Err(_) => Err(self),
        }
    }

    /// Makes the step of a task whose act is Recv, where this value is on its channel.
    pub fn receive(
        mut self,
        alloc: Global,
        program: &Program,
        value: Value,
    ) -> Result<Task, Sending>
        requires fits { FitsTask program.now self }
        requires act { IsRecv (act_in program.now self) }
        ensures ok { IfOk result (λ t. Received program.now self value t) }
        ensures err { IfErr result (λ sending. IsUnmoved self sending.task) }
        ensures value { IfErr result (λ sending. sending.value ≡ value) }
    {
        if self.make_room(1).is_err() {
            return Err(Sending { task: self, value });
        }
        match self.slot(program) {
            Ok(slot) => {
                let Slot { name, next } = slot;
                self.accept(program, Bind { name, value }, next);
                Ok(self)
            }
            Err(_) => Err(Sending { task: self, value }),
        }
    }
}
