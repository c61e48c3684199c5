//! What a hand does with a load that it took.
ghost use Rattle.std.specs.Prelude.{◌≡◌, ℕ, ◌+◌, ◌^◌, ◌<◌, ◌≤◌, true, List, [], Some, None};
ghost use Rattle.cell_rules.specs.Lists.{In};
ghost use Rattle.one_shot_word.specs.Seats.{size};
ghost use Rattle.cell_turns.specs.Crew.{IsIdle, HasFree, HasSpare, HoldsJob, HoldsFree, HoldsRight, Replies, RetiresOne, EndsOne};

use crate::crew::MOST;
use crate::job::{Job, Note};
use chan_base::Number;
use one_shot_word::{Cells, FreeCell, Got, Hand, Place, Retired, Sent};

/// Puts a load home, to be taken again.
pub fn put_home(cells: &Cells<Job, Note, u64>, hand: &mut Hand<Job, Note, u64>, job: Job)
    requires { HoldsJob cells.now hand.old job }
    ensures { IsIdle cells.now hand.new }
{
    hand_calls::home(cells, hand, job, Place::Ready);
}

/// Gives a free cell again, with the first load of its next number.
pub fn reopen_next(
    cells: &Cells<Job, Note, u64>,
    hand: &mut Hand<Job, Note, u64>,
    cell: FreeCell,
    parent: &Job,
) -> Number
    requires free { HoldsFree cells.now hand.old parent.now cell }
    requires small { cell.next.0 ≤ 2 ^ 60 }
    ensures number { result ≡ cell.next }
    ensures holds { HoldsJob cells.now hand.new parent.now }
    ensures names { In (cell.next.0, []) hand.new.seat.me.0.names }
{
    let child = Job::first(cell.next());
    hand_calls::reopen(cells, hand, cell, child, parent)
}

/// A parent forks a child in a free cell, sends to it, and goes home. Where no number is left the cell comes back.
pub fn fork_with(
    cells: &Cells<Job, Note, u64>,
    hand: &mut Hand<Job, Note, u64>,
    cell: FreeCell,
    job: Job,
    serial: u64,
) -> Option<FreeCell>
    requires { HoldsFree cells.now hand.old job cell }
    ensures { HasSpare cells.now hand.new result }
{
    let next = cell.next();
    if next.0 > MOST {
        put_free_home(cells, hand, &cell, job);
        return Some(cell);
    }
    let child = reopen_next(cells, hand, cell, &job);
    send_to(cells, hand, child, &job, serial);
    put_home(cells, hand, job);
    None
}

/// Sends on a number by the load in hand.
pub fn send_to(
    cells: &Cells<Job, Note, u64>,
    hand: &mut Hand<Job, Note, u64>,
    number: Number,
    job: &Job,
    serial: u64,
) -> Sent<Note>
    requires holds { HoldsJob cells.now hand.old job.now }
    requires number { (number.0 ≤ 2 ^ 60) × In (number.0, []) hand.old.seat.me.0.names }
    ensures { HoldsJob cells.now hand.new job.now }
{
    let note = Note {
        channel: number,
        serial,
    };
    hand_calls::send(cells, hand, number, note, job)
}

/// Receives on a number. The load that comes back with a value tells it as received.
pub fn receive(
    cells: &Cells<Job, Note, u64>,
    hand: &mut Hand<Job, Note, u64>,
    number: Number,
    job: Job,
) -> Got<Job, Note>
    requires holds { HoldsJob cells.now hand.old job }
    requires number { (number.0 ≤ 2 ^ 60) × In (number.0, []) hand.old.seat.me.0.names }
    requires new { job.got ≡ None }
    ensures replies { Replies cells.now hand.new job.number.0 number.0 result }
    ensures more { (e : ℕ × List ℕ) → In e hand.old.seat.me.0.names → In e hand.new.seat.me.0.names }
{
    match hand_calls::recv(cells, hand, number, job) {
        Got::Parked => Got::Parked,
        Got::Misused(job, found) => Got::Misused(job, found),
        Got::Value(job, note) => Got::Value(told(job, number), note),
    }
}

/// Receives on the load's own number.
pub fn receive_own(
    cells: &Cells<Job, Note, u64>,
    hand: &mut Hand<Job, Note, u64>,
    job: Job,
) -> Got<Job, Note>
    requires holds { HoldsJob cells.now hand.old job }
    requires new { job.got ≡ None }
    ensures { Replies cells.now hand.new job.number.0 job.number.0 result }
{
    let number = job.number;
    receive(cells, hand, number, job)
}

/// Sends on the load's own number.
pub fn send_own(
    cells: &Cells<Job, Note, u64>,
    hand: &mut Hand<Job, Note, u64>,
    job: &Job,
    serial: u64,
) -> Sent<Note>
    requires { HoldsJob cells.now hand.old job.now }
    ensures { HoldsJob cells.now hand.new job.now }
{
    let number = job.number;
    send_to(cells, hand, number, job, serial)
}

/// Receives once more on the load's own number.
pub fn receive_again(
    cells: &Cells<Job, Note, u64>,
    hand: &mut Hand<Job, Note, u64>,
    number: Number,
    job: Job,
) -> Got<Job, Note>
    requires right { HoldsRight cells.now hand.old job number.0 }
    requires own { job.number.0 ≡ number.0 }
{
    hand_calls::recv(cells, hand, number, job)
}

// The same load, which tells that it received on a number.
fn told(job: Job, got: Number) -> Job
    ensures { (result.number ≡ job.number) × (result.got ≡ Some got) }
{
    let Job { number, ended, .. } = job;
    Job {
        number,
        got: Some(got),
        ended,
    }
}

/// The receiver of a number retires its cell.
pub fn retire_received(
    cells: &Cells<Job, Note, u64>,
    hand: &mut Hand<Job, Note, u64>,
    number: Number,
    job: &Job,
) -> Retired
    requires right { HoldsRight cells.now hand.old job.now number.0 }
    requires small { number.0 + size cells.now ≤ 2 ^ 60 }
    ensures { RetiresOne cells.now hand.new job.now result }
{
    hand_calls::retire_received(cells, hand, number, job)
}

/// The task of a load ends, and retires its cell.
pub fn retire_ended(
    cells: &Cells<Job, Note, u64>,
    hand: &mut Hand<Job, Note, u64>,
    job: Job,
) -> Retired
    requires holds { HoldsJob cells.now hand.old job }
    requires small { job.number.0 + size cells.now ≤ 2 ^ 60 }
    ensures { EndsOne cells.now hand.new result }
{
    let job = ended(job);
    hand_calls::retire_ended(cells, hand, &job)
}

fn ended(job: Job) -> Job
    ensures { (result.number ≡ job.number) × (result.got ≡ job.got) × (result.ended ≡ true) }
{
    let Job { number, got, .. } = job;
    Job {
        number,
        got,
        ended: true,
    }
}

/// A child receives on its own channel, or waits there. Once it has received its cell may be free.
pub fn serve(
    cells: &Cells<Job, Note, u64>,
    hand: &mut Hand<Job, Note, u64>,
    job: Job,
) -> (Option<FreeCell>, Option<Note>)
    requires holds { HoldsJob cells.now hand.old job }
    requires small { job.number.0 + size cells.now ≤ 2 ^ 60 }
    ensures { HasSpare cells.now hand.new result.0 }
{
    let number = job.number;
    if job.got.is_some() {
        put_home(cells, hand, job);
        return (None, None);
    }
    match receive_own(cells, hand, job) {
        Got::Parked => (None, None),
        Got::Misused(job, _) => {
            put_home(cells, hand, job);
            (None, None)
        }
        Got::Value(job, note) => (finish(cells, hand, number, job), Some(note)),
    }
}

// A load that received on its own channel retires its cell twice: as its receiver and as its end.
fn finish(
    cells: &Cells<Job, Note, u64>,
    hand: &mut Hand<Job, Note, u64>,
    number: Number,
    job: Job,
) -> Option<FreeCell>
    requires right { HoldsRight cells.now hand.old job number.0 }
    requires small { (number.0 + size cells.now ≤ 2 ^ 60) × (job.number.0 + size cells.now ≤ 2 ^ 60) }
    ensures { HasSpare cells.now hand.new result }
{
    match retire_received(cells, hand, number, &job) {
        Retired::First => match retire_ended(cells, hand, job) {
            Retired::First => None,
            Retired::Free(cell) => Some(cell),
        },
        Retired::Free(cell) => {
            put_free_home(cells, hand, &cell, job);
            Some(cell)
        }
    }
}

/// Puts a load home, with a free cell in hand.
pub fn put_free_home(
    cells: &Cells<Job, Note, u64>,
    hand: &mut Hand<Job, Note, u64>,
    cell: &FreeCell,
    job: Job,
)
    requires { HoldsFree cells.now hand.old job cell.now }
    ensures { HasFree cells.now hand.new cell.now }
{
    hand_calls::home(cells, hand, job, Place::Ready);
}
