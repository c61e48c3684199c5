//! Whole runs.
ghost use Rattle.std.specs.Prelude.{◌≡◌, ◌≤◌, map, IfOk};
ghost use Rattle.core_language.specs.Endings.{ending_of};
ghost use Rattle.core_language.specs.Rounds.{run_of};
ghost use Rattle.core_programs.specs.Bodies.{program_of};
ghost use Rattle.chan_machine.specs.Ends.{IsOnOneThread};
ghost use Rattle.chan_machine.specs.Fits.{Fits};
ghost use Rattle.chan_machine.specs.Reading.{config_of, ending_as, entry_of};

use crate::configurations::Config;
use crate::endings::ending;
use crate::events::{Ending, Entries};
use crate::rounds::run_rounds;
use crate::runs::Run;
use chan_base::Memory;
use core_programs::Program;
use std::alloc::Global;

/// The configuration after the rounds, their entries in the order of times and names, and the ending.
#[derive(Drop)]
pub struct Replayed {
    pub config: Config,
    pub entries: Entries,
    pub ending: Ending,
}

/// The run of so many rounds, at most 1,000,000,000. It ends early where no task may move any more.
pub fn replay(alloc: Global, program: &Program, rounds: u64) -> Result<Replayed, Memory>
    requires rounds { rounds ≤ 1000000000 }
    ensures config { IfOk result (λ replayed. config_of program.now replayed.config ≡ (run_of (program_of program.now) rounds).config) }
    ensures entries { IfOk result (λ replayed. map entry_of replayed.entries ≡ (run_of (program_of program.now) rounds).entries) }
    ensures ending { IfOk result (λ replayed. ending_as replayed.ending
        ≡ ending_of (program_of program.now) (run_of (program_of program.now) rounds).config) }
    ensures fits { IfOk result (λ replayed. Fits program.now replayed.config) }
    ensures cells { IfOk result (λ replayed. IsOnOneThread replayed.config) }
{
    let Run { config, entries } = run_rounds(alloc, program, rounds)?;
    let ending = ending(alloc, program, &config)?;
    Ok(Replayed {
        config,
        entries,
        ending,
    })
}
