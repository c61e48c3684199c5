//! Tasks of a table that make a step.
ghost use Rattle.std.specs.Prelude.{◌≡◌, ◌<◌, suc, Some, length, OnOk, OnErr};
ghost use Rattle.std.specs.Ordering.{nat_cmp};
ghost use Rattle.std.specs.Cmp.Lexicographic.{slice_cmp};
ghost use Rattle.core_programs.specs.declared.nodes.Parts.{Parts};
ghost use Rattle.machine_values.specs.Cells.{EndTest};
ghost use Rattle.machine_values.specs.Ends.{ValuePasses};
ghost use Rattle.machine_values.specs.Reading.{value_as};
ghost use Rattle.machine_tasks.specs.declared.tasks.Task.{Task};
ghost use Rattle.machine_tasks.specs.Moving.{IsQuiet, at_node, place_after, place_with};
ghost use Rattle.machine_tasks.specs.Reading.{act_in};
ghost use Rattle.machine_tasks.specs.Steps.{place_in};
ghost use Rattle.task_tables.specs.Ends.{NoneNew, TasksPass};
ghost use Rattle.task_tables.specs.Fits.{ActsAt, ForksAt, RoomAt, TasksFit};
ghost use Rattle.task_tables.specs.Tables.{AreUnmoved, MovesTo, looked_up};

use crate::tables::{TaskTable, number_of};
use chan_base::{Memory, Name};
use core_programs::Program;
use machine_tasks::Bind;
use std::alloc::Global;

impl TaskTable {
    /// The task with this name makes its step by itself.
    pub fn advance(
        &mut self,
        alloc: Global,
        program: &Program,
        name: &Name,
        guess: usize,
    ) -> Result<(), Memory>
        requires fits { TasksFit program.now self.old }
        requires act { ActsAt IsQuiet program.now self.old name.now }
        ensures ok { (t : Task) → looked_up (slice_cmp nat_cmp) self.old name.now ≡ Some t
            → OnOk result (MovesTo program.now self.old self.new name.now (place_after (act_in program.now t)) t.forks) }
        ensures err { OnErr result (AreUnmoved program.now self.old self.new) }
        ensures fits { TasksFit program.now self.new }
        ensures ends { NoneNew self.old self.new }
    {
        if let Some(number) = number_of(self.names.as_slice(), &self.numbers, name, guess) {
            self.tasks[number].advance(alloc, program)?;
        }
        Ok(())
    }

    /// The task with this name goes on at the node.
    pub fn move_on(&mut self, program: &Program, name: &Name, guess: usize, node: u32)
        requires node { node < length program.now.nodes }
        requires fits { TasksFit program.now self.old }
        ensures moves { (t : Task) → looked_up (slice_cmp nat_cmp) self.old name.now ≡ Some t
            → MovesTo program.now self.old self.new name.now (at_node program.now.nodes node (place_in program.now t)) t.forks }
        ensures fits { TasksFit program.now self.new }
        ensures ends { NoneNew self.old self.new }
    {
        if let Some(number) = number_of(self.names.as_slice(), &self.numbers, name, guess) {
            self.tasks[number].go_on(program, node);
        }
    }

    /// Room for one more variable in the top frame of the task with this name.
    pub fn make_room(&mut self, name: &Name, guess: usize) -> Result<(), Memory>
        ensures same { (program : Parts) → AreUnmoved program self.old self.new }
        ensures room { OnOk result (RoomAt self.new name.now) }
        ensures forks { ForksAt self.old name.now → ForksAt self.new name.now }
        ensures fits { (program : Parts) → TasksFit program self.old → TasksFit program self.new }
        ensures ends { NoneNew self.old self.new }
    {
        if let Some(number) = number_of(self.names.as_slice(), &self.numbers, name, guess) {
            self.tasks[number].make_room(1)?;
        }
        Ok(())
    }

    /// The task with this name, which has room, goes on with one more variable.
    pub fn accept(&mut self, program: &Program, name: &Name, guess: usize, bind: Bind, node: u32)
        requires node { node < length program.now.nodes }
        requires room { RoomAt self.old name.now }
        requires fits { TasksFit program.now self.old }
        ensures moves { (t : Task) → looked_up (slice_cmp nat_cmp) self.old name.now ≡ Some t
            → MovesTo program.now self.old self.new name.now
            (place_with program.now.nodes bind.name (value_as bind.value) node (place_in program.now t)) t.forks }
        ensures fits { TasksFit program.now self.new }
        ensures ends { (test : EndTest) → ValuePasses test bind.value → TasksPass test self.old → TasksPass test self.new }
    {
        if let Some(number) = number_of(self.names.as_slice(), &self.numbers, name, guess) {
            self.tasks[number].accept(program, bind, node);
        }
    }

    /// The task with this name, which has room, goes on after its fork.
    pub fn branch(&mut self, program: &Program, name: &Name, guess: usize, end: Bind, node: u32)
        requires node { node < length program.now.nodes }
        requires room { RoomAt self.old name.now }
        requires forks { ForksAt self.old name.now }
        requires fits { TasksFit program.now self.old }
        ensures moves { (t : Task) → looked_up (slice_cmp nat_cmp) self.old name.now ≡ Some t
            → MovesTo program.now self.old self.new name.now
            (place_with program.now.nodes end.name (value_as end.value) node (place_in program.now t)) (suc t.forks) }
        ensures fits { TasksFit program.now self.new }
        ensures ends { (test : EndTest) → ValuePasses test end.value → TasksPass test self.old → TasksPass test self.new }
    {
        if let Some(number) = number_of(self.names.as_slice(), &self.numbers, name, guess) {
            self.tasks[number].branch(program, end, node);
        }
    }
}
