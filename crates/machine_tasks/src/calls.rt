//! Calls and returns.
ghost use Rattle.std.specs.Prelude.{◌≡◌, ◌<◌, ◌≤◌, List, [], ◌∷◌, ◌++◌, length, IfOk, IfSome, OnOk, OnErr};
ghost use Rattle.core_language.specs.Acts.{returned};
ghost use Rattle.core_programs.specs.declared.nodes.Node.{Node};
ghost use Rattle.machine_values.specs.Cells.{EndTest};
ghost use Rattle.machine_values.specs.Ends.{ValuePasses, ValuesPass};
ghost use Rattle.machine_values.specs.Reading.{value_as};
ghost use Rattle.machine_tasks.specs.declared.tasks.Frame.{Frame};
ghost use Rattle.machine_tasks.specs.Attempts.{Attempts};
ghost use Rattle.machine_tasks.specs.Ends.{FramePasses, TaskPasses};
ghost use Rattle.machine_tasks.specs.Fits.{AtCall, FramesFit, BindsBelow};
ghost use Rattle.machine_tasks.specs.Kinds.{kind_as, kind_of};
ghost use Rattle.machine_tasks.specs.Reading.{place_of};
ghost use Rattle.machine_tasks.specs.Moving.{above, place_after};
ghost use Rattle.machine_tasks.specs.Steps.{FitsTask, GoesTo, HasTop, IsUnmoved, called, callers_of, waiting};

use crate::acts::Act;
use crate::entering::enter;
use crate::moving::keep;
use crate::tasks::{Frame, Task};
use chan_base::Memory;
use chan_syntax::Ident;
use core_programs::{Node, Program};
use machine_values::{Bind, Value, Values};
use std::alloc::Global;

/// The frame goes on top, and the caller below it keeps what the body at the node names.
fn put_above(
    program: &Program,
    task: &mut Task,
    callee: Option<Frame>,
    next: u32,
) -> Result<(), Memory>
    requires next { next < length program.now.nodes }
    requires some { 0 < length task.old.frames.items }
    requires fits { FitsTask program.now task.old }
    requires stands { IfSome callee (λ g. g.node < length program.now.nodes) }
    ensures ok { (front : List Frame) (f : Frame) → HasTop task.old front f → AtCall program.now.nodes f
        → OnOk result (GoesTo program.now task.old task.new
        (above program.now.nodes callee (waiting program.now.nodes f next ∷ callers_of program.now.nodes front))) }
    ensures ends { OnOk result ((test : EndTest) → IfSome callee (FramePasses test) → TaskPasses test task.old → TaskPasses test task.new) }
    ensures err { OnErr result (IsUnmoved task.old task.new) }
{
    match callee {
        Some(frame) => {
            let caller = task.frames.len() - 1;
            task.frames.push(frame)?;
            if let Some(frame) = task.frames.get_mut(caller) {
                keep(program, &mut frame.binds, next);
            }
        }
        None => task.frames.clear(),
    }
    Ok(())
}

/// The frame takes the place of the top one.
fn replace_top(task: &mut Task, callee: Option<Frame>)
    ensures place { (nodes : List Node) (front : List Frame) (f : Frame) → HasTop task.old front f
        → place_of nodes task.new.frames.items ≡ above nodes callee (callers_of nodes front) }
    ensures fits { (nodes : List Node) → IfSome callee (λ g. g.node < length nodes)
        → FramesFit nodes task.old.frames.items → FramesFit nodes task.new.frames.items }
    ensures ends { (test : EndTest) → IfSome callee (FramePasses test) → TaskPasses test task.old → TaskPasses test task.new }
    ensures name { task.new.name ≡ task.old.name }
    ensures forks { task.new.forks ≡ task.old.forks }
{
    match callee {
        Some(frame) => {
            if let Some(top) = task.frames.last_mut() {
                *top = frame;
            }
        }
        None => task.frames.clear(),
    }
}

/// Calls the function from the top frame, which goes on at the node with the result.
pub(crate) fn call(
    alloc: Global,
    program: &Program,
    task: &mut Task,
    func: &Ident,
    values: Values,
    next: u32,
) -> Result<(), Memory>
    requires next { next < length program.now.nodes }
    requires some { 0 < length task.old.frames.items }
    requires fits { FitsTask program.now task.old }
    ensures ok { (front : List Frame) (f : Frame) → HasTop task.old front f → AtCall program.now.nodes f → OnOk result (GoesTo program.now task.old task.new
        (called program.now func.now values.items (waiting program.now.nodes f next ∷ callers_of program.now.nodes front))) }
    ensures ends { OnOk result ((test : EndTest) → ValuesPass test values.items → TaskPasses test task.old → TaskPasses test task.new) }
    ensures err { OnErr result (IsUnmoved task.old task.new) }
{
    let callee = enter(alloc, program, func, values)?;
    put_above(program, task, callee, next)
}

/// Calls the function in place of the top frame.
pub(crate) fn tail(
    alloc: Global,
    program: &Program,
    task: &mut Task,
    func: &Ident,
    values: Values,
) -> Result<(), Memory>
    requires fits { FitsTask program.now task.old }
    ensures ok { (front : List Frame) (f : Frame) → HasTop task.old front f
        → OnOk result (GoesTo program.now task.old task.new (called program.now func.now values.items (callers_of program.now.nodes front))) }
    ensures ends { OnOk result ((test : EndTest) → ValuesPass test values.items → TaskPasses test task.old → TaskPasses test task.new) }
    ensures err { OnErr result (IsUnmoved task.old task.new) }
{
    let callee = enter(alloc, program, func, values)?;
    replace_top(task, callee);
    Ok(())
}

/// The caller below the top frame gets one more variable.
fn bind_below(task: &mut Task, bind: Bind) -> Result<(), Memory>
    requires { 2 ≤ length task.old.frames.items }
    ensures ok { OnOk result (BindsBelow task.old.frames.items task.new.frames.items bind) }
    ensures ends { OnOk result ((test : EndTest) → ValuePasses test bind.value → TaskPasses test task.old → TaskPasses test task.new) }
    ensures err { OnErr result (IsUnmoved task.old task.new) }
    ensures fits { (nodes : List Node) → FramesFit nodes task.old.frames.items → FramesFit nodes task.new.frames.items }
    ensures name { task.new.name ≡ task.old.name }
    ensures forks { task.new.forks ≡ task.old.forks }
{
    let below = task.frames.len() - 2;
    if let Some(frame) = task.frames.get_mut(below) {
        frame.binds.push(bind)?;
    }
    Ok(())
}

/// The caller goes on with the value of the call.
fn return_to(program: &Program, task: &mut Task, value: Value) -> Result<(), Memory>
    requires two { 2 ≤ length task.old.frames.items }
    requires fits { FitsTask program.now task.old }
    ensures ok { (front : List Frame) (f : Frame) → HasTop task.old front f
        → OnOk result (GoesTo program.now task.old task.new (place_after (returned (callers_of program.now.nodes front) (value_as value)))) }
    ensures ends { OnOk result ((test : EndTest) → ValuePasses test value → TaskPasses test task.old → TaskPasses test task.new) }
    ensures err { OnErr result (IsUnmoved task.old task.new) }
{
    let below = task.frames.len() - 2;
    let caller = &task.frames[below];
    let Node::Call { pat, next, .. } = program.node(caller.node) else {
        unreachable!();
    };
    let name = pat.name.copy()?;
    bind_below(task, Bind { name, value })?;
    let _top = task.frames.pop();
    task.go_on(program, *next);
    Ok(())
}

/// The top frame ends with this value. Tells whether the task ends too.
pub(crate) fn give_back(program: &Program, task: &mut Task, value: Value) -> Result<Act, Memory>
    requires fits { FitsTask program.now task.old }
    ensures kind { IfOk result (λ act. (front : List Frame) (f : Frame) → HasTop task.old front f
        → kind_as act ≡ kind_of (returned (callers_of program.now.nodes front) (value_as value))) }
    ensures goes { (front : List Frame) (f : Frame) → HasTop task.old front f
        → OnOk result (Attempts program.now task.old task.new (returned (callers_of program.now.nodes front) (value_as value))) }
    ensures ends { OnOk result ((test : EndTest) → ValuePasses test value → TaskPasses test task.old → TaskPasses test task.new) }
    ensures err { OnErr result (IsUnmoved task.old task.new) }
{
    if task.frames.len() < 2 {
        task.frames.clear();
        Ok(Act::End)
    } else {
        return_to(program, task, value)?;
        Ok(Act::Silent)
    }
}
