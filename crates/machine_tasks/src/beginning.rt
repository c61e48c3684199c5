//! The task `main` before its first step.
ghost use Rattle.std.specs.Prelude.{◌≡◌, [], IfOk};
ghost use Rattle.core_language.specs.Configurations.{started};
ghost use Rattle.core_language.specs.Programs.{main_function};
ghost use Rattle.core_programs.specs.Bodies.{program_of};
ghost use Rattle.machine_values.specs.Cells.{EndTest};
ghost use Rattle.machine_tasks.specs.Ends.{FramesPass, TaskPasses};
ghost use Rattle.machine_tasks.specs.Fits.{FramesFit};
ghost use Rattle.machine_tasks.specs.Reading.{place_of, IsTask};

use crate::tasks::{Frame, Frames, Task};
use chan_base::{Memory, Name};
use core_programs::Program;
use std::alloc::Global;

fn main_frames(alloc: Global, program: &Program) -> Result<Frames, Memory>
    ensures place { IfOk result (λ frames. started (main_function (program_of program.now)) ≡ place_of program.now.nodes frames.items) }
    ensures fits { IfOk result (λ frames. FramesFit program.now.nodes frames.items) }
    ensures ends { IfOk result (λ frames. (test : EndTest) → FramesPass test frames.items) }
{
    let mut frames = Vec::new(alloc);
    match program.main() {
        Some(function) => {
            let binds = Vec::new(alloc);
            let node = function.first;
            frames.push(Frame { node, binds })?;
            Ok(frames)
        }
        None => Ok(frames),
    }
}

impl Task {
    /// The task `main` before its first step.
    pub fn main(alloc: Global, program: &Program) -> Result<Task, Memory>
        ensures starts { IfOk result (λ task. IsTask program.now task [] 0 (started (main_function (program_of program.now)))) }
        ensures ends { IfOk result (λ task. (test : EndTest) → TaskPasses test task) }
    {
        let frames = main_frames(alloc, program)?;
        let name = Name::root();
        Ok(Task {
            name,
            frames,
            forks: 0,
        })
    }
}
