//! Steps that a task makes by itself.
ghost use Rattle.std.specs.Prelude.{◌≡◌, IfOk, IfErr, OnOk, OnErr};
ghost use Rattle.machine_tasks.specs.Attempts.{Attempts};
ghost use Rattle.machine_tasks.specs.Ends.{NoNewEnds};
ghost use Rattle.machine_tasks.specs.Kinds.{kind_as, kind_of};
ghost use Rattle.machine_tasks.specs.Moving.{IsPrint, IsQuiet};
ghost use Rattle.machine_tasks.specs.Reading.{act_in};
ghost use Rattle.machine_tasks.specs.Steps.{Advances, FitsTask, IsUnmoved};

use crate::acts::Act;
use crate::attempts::{
    arm_of, at_most, parts, try_assign, try_call, try_choose, try_pick, try_return, try_split,
    try_tail,
};
use crate::tasks::Task;
use chan_base::Memory;
use core_programs::{Node, Program};
use machine_values::{StuckWhy, lookup, make, make_all, product_of_sums, quotient, remainder, sum};
use std::alloc::Global;

impl Task {
    /// Makes the step of a task whose act is Silent or End, and tells the act. Another act is told
    /// and not made.
    pub fn try_step(&mut self, alloc: Global, program: &Program) -> Result<Act, Memory>
        requires fits { FitsTask program.now self.old }
        ensures kind { IfOk result (λ act. kind_as act ≡ kind_of (act_in program.now self.old)) }
        ensures goes { OnOk result (Attempts program.now self.old self.new (act_in program.now self.old)) }
        ensures ends { OnOk result (NoNewEnds self.old self.new) }
        ensures err { OnErr result (IsUnmoved self.old self.new) }
    {
        let Some(frame) = self.top() else {
            return Ok(Act::Ended);
        };
        let binds = frame.binds.as_slice();
        match program.node(frame.node) {
            Node::Let {
                name,
                term,
                next,
                ..
            } => {
                let number = sum(binds, term);
                try_assign(program, self, name, number, *next)
            }
            Node::Mul {
                name,
                left,
                right,
                next,
                ..
            } => {
                let number = product_of_sums(binds, left, right);
                try_assign(program, self, name, number, *next)
            }
            Node::Div {
                name,
                term,
                divisor,
                next,
                ..
            } => {
                let number = quotient(binds, term, *divisor);
                try_assign(program, self, name, number, *next)
            }
            Node::Rem {
                name,
                term,
                divisor,
                next,
                ..
            } => {
                let number = remainder(binds, term, *divisor);
                try_assign(program, self, name, number, *next)
            }
            Node::If {
                left,
                right,
                yes,
                no,
                ..
            } => {
                let less = at_most(binds, left, right);
                Ok(try_choose(program, self, less, *yes, *no))
            }
            Node::Call {
                func,
                values,
                next,
                ..
            } => {
                let values = make_all(alloc, binds, values.as_slice())?;
                try_call(alloc, program, self, func, values, *next)
            }
            Node::Tail { func, values, .. } => {
                let values = make_all(alloc, binds, values.as_slice())?;
                try_tail(alloc, program, self, func, values)
            }
            Node::Split {
                first,
                second,
                name: pair,
                next,
                ..
            } => {
                let parts = parts(lookup(binds, pair))?;
                try_split(program, self, &first.name, &second.name, parts, *next)
            }
            Node::Match {
                name: choice,
                arms,
                ..
            } => {
                let found = arm_of(lookup(binds, choice))?;
                try_pick(program, self, arms.as_slice(), found)
            }
            Node::Ret { value, .. } => {
                let value = make(alloc, binds, value)?;
                try_return(program, self, value)
            }
            Node::Print { .. } => Ok(self.act(program)),
            Node::Fork { .. } => Ok(self.act(program)),
            Node::Send1 { .. } => Ok(self.act(program)),
            Node::Recv1 { .. } => Ok(self.act(program)),
            Node::Absurd { .. } => Ok(Act::Stuck(StuckWhy::Absurd)),
        }
    }

    /// Makes the step of a task whose act is Print. It takes no memory.
    pub fn print(&mut self, program: &Program)
        requires fits { FitsTask program.now self.old }
        requires act { IsPrint (act_in program.now self.old) }
        ensures goes { Advances program.now self.old self.new }
        ensures ends { NoNewEnds self.old self.new }
    {
        let Some(frame) = self.top() else {
            unreachable!();
        };
        let Node::Print { next, .. } = program.node(frame.node) else {
            unreachable!();
        };
        self.go_on(program, *next);
    }

    /// Makes the step of a task whose act is Silent, Print or End.
    pub fn advance(&mut self, alloc: Global, program: &Program) -> Result<(), Memory>
        requires fits { FitsTask program.now self.old }
        requires act { IsQuiet (act_in program.now self.old) }
        ensures ok { OnOk result (Advances program.now self.old self.new) }
        ensures ends { OnOk result (NoNewEnds self.old self.new) }
        ensures err { OnErr result (IsUnmoved self.old self.new) }
    {
        if let Act::Print(_) = self.try_step(alloc, program)? {
            self.print(program);
        }
        Ok(())
    }

    /// Makes the step of a task whose act is Silent, Print or End.
    pub fn quiet(mut self, alloc: Global, program: &Program) -> Result<Task, Task>
        requires fits { FitsTask program.now self }
        requires act { IsQuiet (act_in program.now self) }
        ensures ok { IfOk result (λ t. Advances program.now self t) }
        ensures ends { IfOk result (λ t. NoNewEnds self t) }
        ensures err { IfErr result (λ t. IsUnmoved self t) }
    {
        match self.advance(alloc, program) {
            Ok(()) => Ok(self),
            Err(_) => Err(self),
        }
    }
}
