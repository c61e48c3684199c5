//! Hands that work at once.
ghost use Rattle.std.specs.Prelude.{◌≡◌, ℕ, ◌+◌, ◌^◌, ◌<◌, ◌≤◌, List, IfOk, IfErr, IfNone, IfSome};
ghost use Rattle.cell_rules.specs.Lists.{In};
ghost use Rattle.one_shot_word.specs.Seats.{size};
ghost use Rattle.cell_turns.specs.Crew.{IsIdle, HasFree, HasSpare, HoldsJob, HoldsFree};

use crate::done::Done;
use crate::job::{Job, Note};
use crate::turns::{fork_with, put_home, serve};
use chan_base::Number;
use one_shot_word::{Cells, FreeCell, Hand, State};
use std::thread::{Threads, join};

/// Numbers below this one are those of parents.
pub const PARENTS: u64 = 2;

/// No number past this one is made.
pub const MOST: u64 = 1 << 59;

/// The load of a number, with nothing else in hand.
pub fn take_one(
    cells: &Cells<Job, Note, u64>,
    hand: &mut Hand<Job, Note, u64>,
    number: u64,
) -> Result<Job, State>
    requires idle { IsIdle cells.now hand.old }
    requires small { number ≤ 2 ^ 60 }
    ensures ok { IfOk result (λ job. HoldsJob cells.now hand.new job) }
    ensures err { IfErr result (λ _. IsIdle cells.now hand.new) }
    ensures more { (e : ℕ × List ℕ) → In e hand.old.seat.me.0.names → In e hand.new.seat.me.0.names }
{
    match hand_calls::take(cells, hand, Number(number)) {
        Ok(job) => Ok(job),
        Err(state) => Err(state),
    }
}

/// The same with a free cell in hand.
pub fn take_parent(
    cells: &Cells<Job, Note, u64>,
    hand: &mut Hand<Job, Note, u64>,
    number: u64,
    free: &FreeCell,
) -> Option<Job>
    requires free { HasFree cells.now hand.old free.now }
    requires small { number ≤ 2 ^ 60 }
    ensures some { IfSome result (λ job. HoldsFree cells.now hand.new job free.now) }
    ensures none { IfNone result (HasFree cells.now hand.new free.now) }
{
    match hand_calls::take(cells, hand, Number(number)) {
        Ok(job) => Some(job),
        Err(_) => None,
    }
}

// The load of the present number of a cell: the number asked first may be an old one.
fn take_present(
    cells: &Cells<Job, Note, u64>,
    hand: &mut Hand<Job, Note, u64>,
    cell: u64,
    done: &mut Done,
) -> Option<Job>
    requires idle { IsIdle cells.now hand.old }
    requires small { cell ≤ 2 ^ 60 }
    ensures some { IfSome result (λ job. HoldsJob cells.now hand.new job) }
    ensures none { IfNone result (IsIdle cells.now hand.new) }
{
    let later = match take_one(cells, hand, cell) {
        Ok(job) => return Some(job),
        Err(State::Reused(later)) => later,
        Err(_) => return None,
    };
    done.stale = done.stale.wrapping_add(1);
    if later.0 > MOST {
        return None;
    }
    match take_one(cells, hand, later.0) {
        Ok(job) => Some(job),
        Err(_) => None,
    }
}

// A hand with a free cell looks for a parent, which forks in it.
fn fork_turn(
    cells: &Cells<Job, Note, u64>,
    hand: &mut Hand<Job, Note, u64>,
    free: FreeCell,
    parent: u64,
    done: &mut Done,
) -> Option<FreeCell>
    requires free { HasFree cells.now hand.old free }
    requires small { parent ≤ 2 ^ 60 }
    ensures { HasSpare cells.now hand.new result }
{
    match take_parent(cells, hand, parent, &free) {
        None => Some(free),
        Some(job) => {
            let left = fork_with(cells, hand, free, job, done.serial());
            if left.is_none() {
                done.sent = done.sent.wrapping_add(1);
            }
            left
        }
    }
}

// A hand without one looks for a child, which receives.
fn serve_turn(
    cells: &Cells<Job, Note, u64>,
    hand: &mut Hand<Job, Note, u64>,
    cell: u64,
    done: &mut Done,
) -> Option<FreeCell>
    requires idle { IsIdle cells.now hand.old }
    requires small { cell ≤ 2 ^ 60 }
    ensures { HasSpare cells.now hand.new result }
{
    let Some(job) = take_present(cells, hand, cell, done) else {
        return None
    };
    done.taken = done.taken.wrapping_add(1);
    if job.number.0 < PARENTS || job.number.0 > MOST {
        put_home(cells, hand, job);
        return None;
    }
    let (free, got) = serve(cells, hand, job);
    if let Some(note) = got {
        done.keep(note);
    }
    free
}

fn turn(
    cells: &Cells<Job, Note, u64>,
    hand: &mut Hand<Job, Note, u64>,
    spare: Option<FreeCell>,
    cell: u64,
    done: &mut Done,
) -> Option<FreeCell>
    requires spare { HasSpare cells.now hand.old spare }
    requires small { cell ≤ 2 ^ 60 }
    ensures { HasSpare cells.now hand.new result }
{
    match spare {
        Some(free) => fork_turn(cells, hand, free, cell % PARENTS, done),
        None => serve_turn(cells, hand, cell, done),
    }
}

/// So many turns of one hand, whose parcels are numbered from the first on.
pub fn work(
    cells: &Cells<Job, Note, u64>,
    mut hand: Hand<Job, Note, u64>,
    turns: u64,
    first: u64,
) -> (Hand<Job, Note, u64>, Done)
    requires { IsIdle cells.now hand }
    ensures { IsIdle cells.now result.0 }
{
    let mut done = Done::nothing(cells.alloc, first);
    let mut spare = None;
    for i in 0..turns {
        spare = turn(cells, &mut hand, spare, i % 64, &mut done);
    }
    (hand, done)
}

/// Both hands work at once. Their parcels are numbered from the count of cells on, those of the second hand so many turns later.
pub fn both<R: Threads + Sync>(
    rt: &R,
    cells: &Cells<Job, Note, u64>,
    first: Hand<Job, Note, u64>,
    second: Hand<Job, Note, u64>,
    turns: u64,
) -> ((Hand<Job, Note, u64>, Done), (Hand<Job, Note, u64>, Done))
    requires { IsIdle cells.now first × IsIdle cells.now second }
    ensures { IsIdle cells.now result.0.0 × IsIdle cells.now result.1.0 }
{
    let start = cells.cells;
    let later = start.wrapping_add(turns);
    join(
        rt,
        || -> (Hand<Job, Note, u64>, Done)
            requires { IsIdle cells.now first }
            ensures { IsIdle cells.entry.now result.0 }
        { work(cells, first, turns, start) },
        || -> (Hand<Job, Note, u64>, Done)
            requires { IsIdle cells.now second }
            ensures { IsIdle cells.entry.now result.0 }
        { work(cells, second, turns, later) },
    )
}
