//! A task goes on to another node.
ghost use Rattle.std.specs.Prelude.{◌≡◌, ℕ, ◌<◌, ◌+◌, List, length, OnOk};
ghost use Rattle.core_language.specs.Configurations.{kept};
ghost use Rattle.core_programs.specs.declared.nodes.Node.{Node};
ghost use Rattle.core_programs.specs.Bodies.{rest};
ghost use Rattle.machine_values.specs.Cells.{EndTest};
ghost use Rattle.machine_values.specs.Ends.{BindsPass, ValuePasses};
ghost use Rattle.machine_values.specs.Reading.{env_of, value_as};
ghost use Rattle.machine_tasks.specs.Ends.{NoNewEnds, TaskPasses};
ghost use Rattle.machine_tasks.specs.Fits.{FramesFit};
ghost use Rattle.machine_tasks.specs.Reading.{place_of};
ghost use Rattle.machine_tasks.specs.Moving.{at_node, bound_in, HasRoom};
ghost use Rattle.machine_tasks.specs.Steps.{FitsTask, GoesTo, IsUnmoved, place_in};

use crate::tasks::{Frame, Task};
use chan_base::Memory;
use core_programs::Program;
use machine_values::{Bind, Binds};

/// Drops the variables that the body at the node doesn't name.
pub(crate) fn keep(program: &Program, binds: &mut Binds, node: u32)
    requires { node < length program.now.nodes }
    ensures kept { env_of binds.new.items ≡ kept (rest program.now.nodes node) (env_of binds.old.items) }
    ensures ends { (test : EndTest) → BindsPass test binds.old.items → BindsPass test binds.new.items }
{
    let mut at = 0;
    'binds: while at < binds.len() {
        if program.names(node, &binds[at].name) {
            at += 1;
        } else {
            let _dropped = binds.remove(at);
        }
    }
}

/// The frame stands at the node from now on.
fn settle(program: &Program, frame: &mut Frame, node: u32)
    requires { node < length program.now.nodes }
    ensures node { frame.new.node ≡ node }
    ensures binds { env_of frame.new.binds.items ≡ kept (rest program.now.nodes node) (env_of frame.old.binds.items) }
    ensures ends { (test : EndTest) → BindsPass test frame.old.binds.items → BindsPass test frame.new.binds.items }
{
    frame.node = node;
    keep(program, &mut frame.binds, node);
}

impl Task {
    /// The task goes on at the node, in its top frame.
    pub fn go_on(&mut self, program: &Program, node: u32)
        requires node { node < length program.now.nodes }
        requires fits { FitsTask program.now self.old }
        ensures goes { GoesTo program.now self.old self.new (at_node program.now.nodes node (place_in program.now self.old)) }
        ensures ends { NoNewEnds self.old self.new }
    {
        if let Some(frame) = self.frames.last_mut() {
            settle(program, frame, node);
        }
    }

    /// Room for so many more variables in the top frame.
    pub fn make_room(&mut self, count: usize) -> Result<(), Memory>
        ensures room { OnOk result (HasRoom self.new.frames.items count) }
        ensures same { IsUnmoved self.old self.new }
    {
        if let Some(frame) = self.frames.last_mut() {
            frame.binds.reserve(count)?;
        }
        Ok(())
    }

    /// The top frame, which has room, gets one more variable.
    pub fn bind(&mut self, bind: Bind)
        requires { HasRoom self.old.frames.items 1 }
        ensures place { (nodes : List Node)
            → place_of nodes self.new.frames.items ≡ bound_in bind.name (value_as bind.value) (place_of nodes self.old.frames.items) }
        ensures room { (n : ℕ) → HasRoom self.old.frames.items (n + 1) → HasRoom self.new.frames.items n }
        ensures fits { (nodes : List Node) → FramesFit nodes self.old.frames.items → FramesFit nodes self.new.frames.items }
        ensures ends { (test : EndTest) → ValuePasses test bind.value → TaskPasses test self.old → TaskPasses test self.new }
        ensures name { self.new.name ≡ self.old.name }
        ensures forks { self.new.forks ≡ self.old.forks }
    {
        if let Some(frame) = self.frames.last_mut() {
            let _pushed = frame.binds.push(bind);
        }
    }
}
