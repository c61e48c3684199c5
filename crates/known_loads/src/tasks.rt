//! Known tasks, and their calls.
ghost use Rattle.std.specs.Prelude.{◌≡◌, ℕ, ◌≤◌, ◌^◌, false, Some, IfOk, IfErr};
ghost use Rattle.core_language.specs.Names.{Name as AnyName};
ghost use Rattle.core_programs.specs.Bodies.{program_of};
ghost use Rattle.task_rounds.specs.Reaching.{NeverSticks};
ghost use Rattle.known_tasks.specs.Nexts.{Silent, Fork, Send, End, has_ended, next};
ghost use Rattle.known_tasks.specs.Calls.{IsFor, after_finish, after_receive, after_silent};
ghost use Rattle.known_loads.specs.Following.{IsNext, no_news, received};
ghost use Rattle.known_loads.specs.Holding.{Holds};
ghost use Rattle.known_loads.specs.Reading.{known_of, parcel_as};
ghost use Rattle.known_loads.specs.Steps.{Begins, Forks, Sends, Stays, Steps};

use crate::nexts::Next;
use crate::parcels::KnownParcel;
use crate::states::State;
use chan_base::{Memory, Number};
use core_programs::Program;
use machine_tasks::Task;
use std::alloc::Global;
use std::marker::Model;

/// A task as it is after a stated round of the round run, with what it did up to there. It is seen as
/// its program and its state.
#[derive(Drop)]
pub struct KnownTask<'a> {
    pub(crate) program: &'a Program,
    pub(crate) state: State,
}

impl<'a> Model for KnownTask<'a> {
    ghost use Rattle.std.specs.Coded.{coded×};
    ghost use Rattle.core_programs.specs.declared.nodes.Parts.{Parts};
    ghost use Rattle.core_programs.specs.contracts.nodes.Parts as whole;
    ghost use Rattle.known_loads.specs.declared.states.State.{State};
    ghost use Rattle.known_loads.specs.contracts.states.State as standing;

    ghost Value = { Parts × State };

    ghost coded = { coded× whole.the_row.coded standing.the_row.coded };

    ghost use Rattle.known_loads.specs.Holding.{Holds};

    ghost view = { λ k. (k.program.now, k.state) };

    ghost invariant = { λ k. Holds (k.program.now, k.state) };
}

/// What a fork makes.
#[derive(Drop)]
pub struct Forked<'a> {
    pub parent: KnownTask<'a>,
    pub child: KnownTask<'a>,
}

/// What a send makes.
#[derive(Drop)]
pub struct SentOff<'a> {
    pub task: KnownTask<'a>,
    pub parcel: KnownParcel<'a>,
}

/// What a receive was given, where there was no memory.
#[derive(Drop)]
pub struct Kept<'a> {
    pub task: KnownTask<'a>,
    pub parcel: KnownParcel<'a>,
}

impl<'a> KnownTask<'a> {
    /// The task `main` before the first round of a run of at most so many rounds.
    pub fn main(
        alloc: Global,
        program: &'a Program,
        rounds: u64,
        cell: Number,
    ) -> Result<KnownTask<'a>, Memory>
        requires never { NeverSticks (program_of program.now) }
        requires rounds { rounds ≤ 1000000000 }
        requires cell { cell.0 ≤ 2 ^ 60 }
        ensures { IfOk result (λ k. Begins program.now rounds cell k) }
    {
        let task = Task::main(alloc, program)?;
        let state = State {
            limit: rounds,
            cell,
            time: 0,
            task,
            notes: Vec::new(alloc),
            late: None,
        };
        Ok(KnownTask { program, state })
    }

    /// What the type keeps. It does nothing.
    pub fn known(&self)
        ensures { Holds self.now }
    {
        let _ = &self.state;
    }

    /// The cell of the channel that was made with the task.
    pub fn cell(&self) -> Number
        ensures is { result ≡ self.now.1.cell }
        ensures small { result.0 ≤ 2 ^ 60 }
    {
        self.state.cell
    }

    /// Whether it is the first task.
    pub fn is_main(&self) -> bool {
        self.state.task.name().parts() == 0
    }

    /// Whether the task has made its last step.
    pub fn ended(&self) -> bool
        ensures { result ≡ has_ended (known_of self.now) }
    {
        self.state.task.frames().is_empty()
    }

    /// What the task does next.
    pub fn next(&self) -> Next
        requires { has_ended (known_of self.now) ≡ false }
        ensures { IsNext self.now result }
    {
        self.state.next(self.program)
    }

    /// Makes a step that shows nothing, or prints.
    pub fn silent(self, alloc: Global) -> Result<KnownTask<'a>, KnownTask<'a>>
        requires { next (known_of self) ≡ Some Silent }
        ensures ok { IfOk result (λ k. Steps self.entry k (after_silent (known_of self.entry)) no_news) }
        ensures err { IfErr result (λ k. Stays self.entry k) }
    {
        let KnownTask { program, mut state } = self;
        match state.make_silent(alloc, program) {
            Ok(()) => Ok(KnownTask { program, state }),
            Err(_) => Err(KnownTask { program, state }),
        }
    }

    /// Makes a fork. The channel of the two tasks has this cell.
    pub fn fork(self, alloc: Global, cell: Number) -> Result<Forked<'a>, KnownTask<'a>>
        requires next { next (known_of self) ≡ Some Fork }
        requires cell { cell.0 ≤ 2 ^ 60 }
        ensures ok { IfOk result (λ made. Forks self.entry cell made.parent made.child) }
        ensures err { IfErr result (λ k. Stays self.entry k) }
    {
        let KnownTask { program, mut state } = self;
        match state.make_fork(alloc, program, cell) {
            Ok(child) => Ok(Forked {
                parent: KnownTask { program, state },
                child: KnownTask {
                    program,
                    state: child,
                },
            }),
            Err(_) => Err(KnownTask { program, state }),
        }
    }

    /// Makes a send, and gives the parcel for its channel.
    pub fn send(self, alloc: Global) -> Result<SentOff<'a>, KnownTask<'a>>
        requires { (c : AnyName) × (next (known_of self) ≡ Some (Send c)) }
        ensures ok { IfOk result (λ made. Sends self.entry made.task made.parcel) }
        ensures err { IfErr result (λ k. Stays self.entry k) }
    {
        let KnownTask { program, mut state } = self;
        match state.make_send(alloc, program) {
            Ok(letter) => Ok(SentOff {
                task: KnownTask { program, state },
                parcel: KnownParcel { program, letter },
            }),
            Err(_) => Err(KnownTask { program, state }),
        }
    }

    /// Makes a receive, in the first round after both the task's time and the send. What the last
    /// round sent is kept, and not received.
    pub fn receive(self, parcel: KnownParcel<'a>) -> Result<KnownTask<'a>, Kept<'a>>
        requires { IsFor (parcel_as parcel) (known_of self) }
        ensures ok { IfOk result (λ k. Steps self.entry k (after_receive (known_of self.entry) (parcel_as parcel.entry)) (received parcel.entry.1)) }
        ensures err { IfErr result (λ kept. Stays self.entry kept.task) }
        ensures parcel { IfErr result (λ kept. kept.parcel ≡ parcel.entry) }
    {
        let KnownTask { program, mut state } = self;
        match state.prepare(program) {
            Ok(slot) => {
                let KnownParcel { letter, .. } = parcel;
                state.make_receive(program, slot, letter);
                Ok(KnownTask { program, state })
            }
            Err(_) => Err(Kept {
                task: KnownTask { program, state },
                parcel,
            }),
        }
    }

    /// Makes the last step.
    pub fn finish(self, alloc: Global) -> Result<KnownTask<'a>, KnownTask<'a>>
        requires { next (known_of self) ≡ Some End }
        ensures ok { IfOk result (λ k. Steps self.entry k (after_finish (known_of self.entry)) no_news) }
        ensures err { IfErr result (λ k. Stays self.entry k) }
    {
        let KnownTask { program, mut state } = self;
        match state.make_end(alloc, program) {
            Ok(()) => Ok(KnownTask { program, state }),
            Err(_) => Err(KnownTask { program, state }),
        }
    }
}
