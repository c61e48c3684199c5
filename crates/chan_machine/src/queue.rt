//! Who waits at which channel, and who may move.
ghost use Rattle.std.specs.Prelude.{◌≡◌, ◌||◌, ◌&&◌, not, List, OnOk, ◌++◌, ◌∷◌, [], IfOk, filter};
ghost use Rattle.std.specs.Ordering.{nat_cmp};
ghost use Rattle.std.specs.Cmp.Lexicographic.{slice_cmp};
ghost use Rattle.std.specs.List.Sorted.{IsStrictlySortedBy};
ghost use Rattle.std.specs.BTreeMap.{keys};
ghost use Rattle.core_language.specs.Names.{same_name, Name as NameOf};
ghost use Rattle.core_language.specs.Rounds.{moves};
ghost use Rattle.core_programs.specs.Bodies.{program_of};
ghost use Rattle.machine_rounds.specs.Sets.{has};
ghost use Rattle.chan_machine.specs.Parking.{is_joined, names_of, seats, waits};
ghost use Rattle.chan_machine.specs.Fits.{Fits};
ghost use Rattle.chan_machine.specs.Reading.{config_of};
ghost use Rattle.chan_machine.specs.Turning.{Parked};

use crate::looks::{awaited, can_move};
use crate::runs::{Joined, Run, Seat, Waiting};
use chan_base::{Memory, Name};
use core_programs::Program;
use std::alloc::Global;

/// From now on this task waits at the channel, beside those that do.
pub(crate) fn park(
    alloc: Global,
    waiting: &mut Waiting,
    channel: &Name,
    seat: Seat,
) -> Result<(), Memory>
    ensures waits { OnOk result ((c q : NameOf)
        → waits waiting.new c q ≡ (waits waiting.old c q || (same_name c channel.now && same_name q seat.name))) }
{
    let mut waiters = match waiting.remove(channel) {
        Some(waiters) => waiters,
        None => Vec::new(alloc),
    };
    waiters.push(seat)?;
    let channel = channel.copy()?;
    waiting.insert(channel, waiters)?;
    Ok(())
}

/// These tasks join.
fn join_all(joined: &mut Joined, joining: Vec<Seat>) -> Result<(), Memory>
    ensures { OnOk result ((q : NameOf) → is_joined joined.new q ≡ (is_joined joined.old q || seats joining.items q)) }
{
    'joining: for seat in joining {
        let Seat { name, number } = seat;
        joined.insert(name, number)?;
    }
    Ok(())
}

/// Who waits at the channel joins, and nobody waits there any more.
pub(crate) fn wake(waiting: &mut Waiting, channel: &Name, joined: &mut Joined) -> Result<(), Memory>
    ensures waits { OnOk result ((c q : NameOf) → waits waiting.new c q ≡ (waits waiting.old c q && not (same_name c channel.now))) }
    ensures joined { OnOk result ((q : NameOf) → is_joined joined.new q ≡ (is_joined joined.old q || waits waiting.old channel.now q)) }
{
    if let Some(waiters) = waiting.remove(channel) {
        join_all(joined, waiters)?;
    }
    Ok(())
}

/// The seats of those that joined, in the order of their names.
fn in_order(alloc: Global, joined: Joined) -> Result<Vec<Seat>, Memory>
    ensures { IfOk result (λ ready. names_of ready.items ≡ keys joined) }
{
    let mut ready = Vec::new(alloc);
    'joined: for (name, number) in joined {
        ready.push(Seat { name, number })?;
    }
    Ok(ready)
}

/// The movers and those that joined while they had their turns, in the order of their names.
pub(crate) fn gather(alloc: Global, movers: Vec<Seat>, joined: Joined) -> Result<Vec<Seat>, Memory>
    requires { IsStrictlySortedBy (slice_cmp nat_cmp) (names_of movers.items) }
    ensures ascend { IfOk result (λ ready. IsStrictlySortedBy (slice_cmp nat_cmp) (names_of ready.items)) }
    ensures all { IfOk result (λ ready. (q : NameOf) → seats ready.items q ≡ (seats movers.items q || is_joined joined q)) }
{
    if joined.is_empty() {
        return Ok(movers);
    }
    let mut joined = joined;
    join_all(&mut joined, movers)?;
    let _ordered = joined.len();
    in_order(alloc, joined)
}

/// Puts a task that moves to the movers, and lets another wait at its channel.
fn sort_out(
    alloc: Global,
    program: &Program,
    run: &Run,
    waiting: &mut Waiting,
    movers: &mut Vec<Seat>,
    seat: Seat,
) -> Result<(), Memory>
    requires fits { Fits program.now run.now.config }
    ensures movers { OnOk result (names_of movers.new.items
        ≡ names_of movers.old.items ++ filter (moves (program_of program.now) (config_of program.now run.now.config)) (seat.name ∷ [])) }
    ensures parked { OnOk result ((rest : List NameOf)
        → Parked program.now run.now (λ q. has (slice_cmp nat_cmp) (seat.name ∷ rest) q || seats movers.old.items q) waiting.old
        → Parked program.now run.now (λ q. has (slice_cmp nat_cmp) rest q || seats movers.new.items q) waiting.new) }
{
    if can_move(program, &run.config, &seat.name, seat.number) {
        movers.push(seat)?;
    } else if let Some(channel) = awaited(program, &run.config, &seat.name, seat.number) {
        park(alloc, waiting, channel, seat)?;
    }
    Ok(())
}

/// Those of the ready tasks that move, in order; the others wait from now on.
pub(crate) fn sift(
    alloc: Global,
    program: &Program,
    run: &Run,
    waiting: &mut Waiting,
    ready: Vec<Seat>,
) -> Result<Vec<Seat>, Memory>
    requires fits { Fits program.now run.now.config }
    requires parked { Parked program.now run.now (seats ready.items) waiting.old }
    ensures movers { IfOk result (λ movers. names_of movers.items
        ≡ filter (moves (program_of program.now) (config_of program.now run.now.config)) (names_of ready.items)) }
    ensures parked { IfOk result (λ movers. Parked program.now run.now (seats movers.items) waiting.new) }
{
    let mut movers = Vec::new(alloc);
    'ready: for seat in ready {
        sort_out(alloc, program, run, waiting, &mut movers, seat)?;
    }
    Ok(movers)
}
