//! Rounds that cost what their moving tasks cost.
ghost use Rattle.std.specs.Prelude.{◌≡◌, ◌<◌, ◌≤◌, suc, IfOk, OnOk};
ghost use Rattle.core_language.specs.Rounds.{round as round_of, run_of};
ghost use Rattle.core_programs.specs.Bodies.{program_of};
ghost use Rattle.machine_rounds.specs.Showing.{ForksUpTo};
ghost use Rattle.chan_machine.specs.Ends.{IsOnOneThread};
ghost use Rattle.chan_machine.specs.Fits.{Fits};
ghost use Rattle.chan_machine.specs.Reading.{config_of};
ghost use Rattle.chan_machine.specs.Turning.{IsQueue, run_as};

use crate::queue::{gather, sift};
use crate::runs::{Joining, Queue, Run, Seat};
use crate::steps::start;
use crate::turns::run_turns;
use chan_base::{Memory, Name};
use core_programs::Program;
use sqlite_items::Items;
use std::alloc::Global;
use std::collections::BTreeMap;

/// The round after so many. Gives who may move in the next one.
fn round(
    alloc: Global,
    program: &Program,
    before: u64,
    run: &mut Run,
    queue: Queue,
) -> Result<Queue, Memory>
    requires before { before < 4294967295 }
    requires fits { Fits program.now run.old.config }
    requires forks { ForksUpTo before (config_of program.now run.old.config).tasks }
    requires queue { IsQueue program.now run.old queue }
    ensures round { OnOk result (run_as program.now run.new ≡ round_of (program_of program.now) (suc before) (run_as program.now run.old)) }
    ensures queue { IfOk result (λ next. IsQueue program.now run.new next) }
    ensures forks { OnOk result (ForksUpTo (suc before) (config_of program.now run.new.config).tasks) }
    ensures fits { OnOk result (Fits program.now run.new.config) }
    ensures cells { OnOk result (IsOnOneThread run.old.config → IsOnOneThread run.new.config) }
{
    let Queue { ready, mut waiting } = queue;
    let movers = sift(alloc, program, run, &mut waiting, ready)?;
    let mut next = Joining {
        joined: BTreeMap::new(alloc),
        waiting,
    };
    run_turns(alloc, program, before, run, &mut next, movers.as_slice())?;
    let Joining { joined, waiting } = next;
    let ready = gather(alloc, movers, joined)?;
    Ok(Queue { ready, waiting })
}

/// Rounds from the start, as long as a task may move.
fn run_all(
    alloc: Global,
    program: &Program,
    rounds: u64,
    run: &mut Run,
    queue: Queue,
) -> Result<(), Memory>
    requires rounds { rounds ≤ 1000000000 }
    requires start { run_as program.now run.old ≡ run_of (program_of program.now) 0 }
    requires fits { Fits program.now run.old.config }
    requires forks { ForksUpTo 0 (config_of program.now run.old.config).tasks }
    requires queue { IsQueue program.now run.old queue }
    ensures run { OnOk result (run_as program.now run.new ≡ run_of (program_of program.now) rounds) }
    ensures fits { OnOk result (Fits program.now run.new.config) }
    ensures cells { OnOk result (IsOnOneThread run.old.config → IsOnOneThread run.new.config) }
{
    let mut queue = queue;
    let mut time = 0;
    'rounds: while time < rounds && !queue.ready.is_empty() {
        queue = round(alloc, program, time, run, queue)?;
        time += 1;
    }
    Ok(())
}

/// The run after so many rounds.
pub(crate) fn run_rounds(alloc: Global, program: &Program, rounds: u64) -> Result<Run, Memory>
    requires rounds { rounds ≤ 1000000000 }
    ensures run { IfOk result (λ run. run_as program.now run ≡ run_of (program_of program.now) rounds) }
    ensures fits { IfOk result (λ run. Fits program.now run.config) }
    ensures cells { IfOk result (λ run. IsOnOneThread run.config) }
{
    let config = start(alloc, program)?;
    let mut ready = Vec::new(alloc);
    ready.push(Seat {
        name: Name::root(),
        number: 0,
    })?;
    let mut run = Run {
        config,
        entries: Items::new(alloc),
    };
    let queue = Queue {
        ready,
        waiting: BTreeMap::new(alloc),
    };
    run_all(alloc, program, rounds, &mut run, queue)?;
    Ok(run)
}
