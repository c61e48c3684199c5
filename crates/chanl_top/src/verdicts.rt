//! What the program answers to a text.
ghost use Rattle.std.specs.Prelude.{◌≡◌, ℕ, ◌≤◌, length, IfOk};
ghost use Rattle.core_programs.specs.Bodies.{program_of};
ghost use Rattle.chan_machine.specs.Reading.{ending_as};
ghost use Rattle.chanl_words.specs.Words.{most_rounds};
ghost use Rattle.chanl_top.specs.Verdict.{IsFmtVerdict, IsReplayVerdict, IsTextVerdict, IsTreeVerdict, ending_status, line_refusal, replayed};
ghost use Rattle.chanl_top.specs.Decided.{AreFew};

use crate::readings::{Reading, read};
use crate::status::Status;
use chan_base::{Bytes, Memory};
use chan_machine::{Ending, replay};
use chan_printer::print;
use chan_syntax::Surface;
use chanl_lines::{ill_line, run_text};
use chanl_words::Command;
use core_numbering::number;
use core_programs::{BuildFault, Program};
use core_trees::is_core;
use std::alloc::Global;

/// A status and an output text.
#[derive(Drop)]
pub struct Verdict {
    pub status: Status,
    pub output: Bytes,
}

fn status_of(ending: &Ending) -> Status
    ensures { result ≡ ending_status (ending_as ending.now) }
{
    match ending {
        Ending::Finished => Status::Done,
        Ending::Rounds | Ending::Range(_) | Ending::Depth(_) => Status::Stopped,
        Ending::Stuck(..) | Ending::Deadlocked(_) | Ending::Leaked(_) => Status::BadEnding,
    }
}

fn refuse(output: Bytes) -> Verdict
    ensures { result ≡ line_refusal output }
{
    Verdict {
        status: Status::TextRefused,
        output,
    }
}

/// The canonical spelling of a text.
fn formatted(alloc: Global, text: &[u8]) -> Result<Verdict, Memory>
    requires { length text.now ≤ 1048576 }
    ensures { IfOk result (IsFmtVerdict text.now) }
{
    match read(alloc, text)? {
        Reading::Tree(tree) => {
            let output = print(alloc, &tree)?;
            Ok(Verdict {
                status: Status::Done,
                output,
            })
        }
        Reading::Refused(line) => Ok(refuse(line)),
    }
}

/// The prints and the ending of a run of so many rounds at the most.
fn run(alloc: Global, program: &Program, rounds: u64) -> Result<Verdict, Memory>
    requires { rounds ≤ most_rounds }
    ensures { IfOk result (λ verdict. verdict ≡ replayed (program_of program.now) rounds) }
{
    let replayed = replay(alloc, program, rounds)?;
    let output = run_text(alloc, replayed.entries.as_slice(), &replayed.ending)?;
    Ok(Verdict {
        status: status_of(&replayed.ending),
        output,
    })
}

/// The run of a tree, or why it can't be run.
fn run_tree(alloc: Global, tree: &Surface, rounds: u64) -> Result<Verdict, Memory>
    requires { rounds ≤ most_rounds }
    ensures { IfOk result (IsTreeVerdict tree.now rounds) }
{
    if !is_core(tree) {
        let line = Bytes::from_slice(alloc, b"refused not yet\n")?;
        return Ok(refuse(line));
    }
    match number(alloc, tree) {
        Ok(program) => {
            let verdict = run(alloc, &program, rounds)?;
            Ok(verdict)
        }
        Err(BuildFault::Ill(ill)) => {
            let line = ill_line(alloc, &ill)?;
            Ok(refuse(line))
        }
        Err(BuildFault::Memory) => Err(Memory),
    }
}

/// The run of a text.
fn replayed(alloc: Global, text: &[u8], rounds: u64) -> Result<Verdict, Memory>
    requires text { length text.now ≤ 1048576 }
    requires rounds { rounds ≤ most_rounds }
    ensures { IfOk result (IsReplayVerdict rounds text.now) }
{
    match read(alloc, text)? {
        Reading::Tree(tree) => {
            let verdict = run_tree(alloc, &tree, rounds)?;
            Ok(verdict)
        }
        Reading::Refused(line) => Ok(refuse(line)),
    }
}

/// The answer of a command to a text of at most the greatest length.
pub(crate) fn answer_to(alloc: Global, command: Command, text: &[u8]) -> Result<Verdict, Memory>
    requires text { length text.now ≤ 1048576 }
    requires rounds { AreFew command }
    ensures { IfOk result (IsTextVerdict command text.now) }
{
    match command {
        Command::Fmt => formatted(alloc, text),
        Command::Replay { rounds } => replayed(alloc, text, rounds),
    }
}
