//! The turns of a round.
ghost use Rattle.std.specs.Prelude.{◌≡◌, ◌<◌, ◌+◌, ◌++◌, ◌∷◌, [], true, false, ℕ, List, map, OnOk};
ghost use Rattle.std.specs.List.Sorted.{IsStrictlySortedBy};
ghost use Rattle.std.specs.Ordering.{nat_cmp};
ghost use Rattle.std.specs.Cmp.Lexicographic.{slice_cmp};
ghost use Rattle.core_language.specs.Names.{Name as NameOf};
ghost use Rattle.core_language.specs.Rounds.{event_entries, turn as turn_of, turns as turns_of};
ghost use Rattle.core_programs.specs.Bodies.{program_of};
ghost use Rattle.machine_rounds.specs.Sets.{has};
ghost use Rattle.machine_rounds.specs.Showing.{ForksWithin};
ghost use Rattle.chan_machine.specs.Ends.{IsOnOneThread};
ghost use Rattle.chan_machine.specs.Fits.{Fits, ForksAt};
ghost use Rattle.chan_machine.specs.Parking.{names_of};
ghost use Rattle.chan_machine.specs.Reading.{config_of, entry_of, event_of};
ghost use Rattle.chan_machine.specs.Turning.{ParkedBut, SpreadsTo, event_in, run_as, shows_nothing};

use crate::events::{Entries, Entry, Event, Stepped};
use crate::queue::wake;
use crate::runs::{Joining, Run, Seat};
use crate::steps::step_at;
use chan_base::{Memory, Name};
use core_programs::Program;
use std::alloc::Global;

/// What the step shows, where it was made.
fn shown(stepped: Stepped) -> Option<Event>
    ensures { result ≡ event_in stepped }
{
    match stepped {
        Stepped::Moved(event) => Some(event),
        _ => None,
    }
}

fn is_silent(event: &Event) -> bool
    ensures { result ≡ shows_nothing event.now }
{
    matches!(event, Event::Silent)
}

/// Adds what the step shows, where it shows anything.
fn note(entries: &mut Entries, time: u64, name: &Name, event: Event) -> Result<(), Memory>
    ensures { OnOk result (map entry_of entries.new ≡ map entry_of entries.old ++ event_entries time name.now (event_of event)) }
{
    if !is_silent(&event) {
        let name = name.copy()?;
        entries.push(Entry { time, name, event })?;
    }
    Ok(())
}

/// After the step of a mover: who was forked joins, with this number, and who waited at the channel of the step.
fn spread(queue: &mut Joining, number: usize, event: &Event) -> Result<(), Memory>
    ensures { OnOk result (SpreadsTo (event_of event.now) queue.old queue.new) }
{
    match event {
        Event::Fork(channel) => {
            let child = channel.copy()?;
            queue.joined.insert(child, number)?;
            wake(&mut queue.waiting, channel, &mut queue.joined)?;
        }
        Event::Send(channel) => wake(&mut queue.waiting, channel, &mut queue.joined)?,
        Event::Recv(channel) => wake(&mut queue.waiting, channel, &mut queue.joined)?,
        Event::Silent => {}
        Event::Print(_) => {}
        Event::End => {}
    }
    Ok(())
}

/// One turn of a mover.
fn turn(
    alloc: Global,
    program: &Program,
    time: u64,
    run: &mut Run,
    queue: &mut Joining,
    mover: &Seat,
) -> Result<(), Memory>
    requires fits { Fits program.now run.old.config }
    requires forks { ForksAt run.old.config.tasks mover.now.name }
    ensures turn { OnOk result (run_as program.now run.new ≡ turn_of (program_of program.now) time (run_as program.now run.old) mover.now.name) }
    ensures parked { OnOk result ((movers : List NameOf) → has (slice_cmp nat_cmp) movers mover.now.name ≡ true
        → ParkedBut program.now run.old movers queue.old → ParkedBut program.now run.new movers queue.new) }
    ensures forks { OnOk result ((n : ℕ) (rest : List NameOf) → has (slice_cmp nat_cmp) rest mover.now.name ≡ false
        → ForksWithin n (config_of program.now run.old.config).tasks (mover.now.name ∷ rest)
        → ForksWithin n (config_of program.now run.new.config).tasks rest) }
    ensures fits { Fits program.now run.new.config }
    ensures cells { OnOk result (IsOnOneThread run.old.config → IsOnOneThread run.new.config) }
{
    let number = run.config.tasks.len();
    let stepped = step_at(alloc, program, &mut run.config, &mover.name, mover.number)?;
    let Some(event) = shown(stepped) else {
        return Ok(());
    };
    spread(queue, number, &event)?;
    note(&mut run.entries, time, &mover.name, event)?;
    Ok(())
}

/// A turn of each of the movers, in the round after so many.
pub(crate) fn run_turns(
    alloc: Global,
    program: &Program,
    before: u64,
    run: &mut Run,
    queue: &mut Joining,
    movers: &[Seat],
) -> Result<(), Memory>
    requires before { before < 4294967295 }
    requires ascend { IsStrictlySortedBy (slice_cmp nat_cmp) (names_of movers.now) }
    requires fits { Fits program.now run.old.config }
    requires forks { ForksWithin before (config_of program.now run.old.config).tasks (names_of movers.now) }
    requires parked { ParkedBut program.now run.old (names_of movers.now) queue.old }
    ensures turns { OnOk result (run_as program.now run.new
        ≡ turns_of (program_of program.now) (before + 1) (run_as program.now run.old) (names_of movers.now)) }
    ensures parked { OnOk result (ParkedBut program.now run.new (names_of movers.now) queue.new) }
    ensures forks { OnOk result (ForksWithin before (config_of program.now run.new.config).tasks []) }
    ensures fits { OnOk result (Fits program.now run.new.config) }
    ensures cells { OnOk result (IsOnOneThread run.old.config → IsOnOneThread run.new.config) }
{
    'movers: for mover in movers {
        turn(alloc, program, before + 1, run, queue, mover)?;
    }
    Ok(())
}
