//! Messages: a parent forks a child in a free cell and sends to it; the child receives, ends, and frees its cell.
ghost use Rattle.std.specs.Prelude.{◌≡◌, ℕ, ◌^◌, ◌≤◌, ◌<◌, IfSome};
ghost use Rattle.cell_turns.specs.Crew.{IsIdle, HasFree, HasSpare, HoldsRight};

use crate::watch::{Laps, Watch, add};
use cell_turns::{
    Job, MOST, Note, open_two, put_free_home, put_home, receive_own, reopen_next, retire_ended,
    retire_received, seed, send_to, serve, start, take_one, take_parent,
};
use chan_base::Number;
use one_shot_word::{Cells, FreeCell, Got, Hand, Retired};
use std::alloc::Global;
use std::thread::{Threads, join};
use std::time::Clock;

type Table = Cells<Job, Note, u64>;

type Mine = Hand<Job, Note, u64>;

const CELLS: u64 = 65536;

// The number of a parent, and that of the first child. Those of the two hands lie apart, so that they share no line of a cache.
#[derive(Clone, Copy)]
struct Pair {
    parent: u64,
    child: u64,
}

const FIRST: Pair = Pair {
    parent: 0,
    child: 32,
};

const SECOND: Pair = Pair {
    parent: 64,
    child: 96,
};

/// So many messages of one hand.
pub fn on_one<C: Clock>(alloc: Global, clock: &C, count: u64) -> Option<Laps> {
    let (cells, first, _second) = open_two(alloc, CELLS)?;
    let (mut first, laps) = begun(clock, &cells, first, CELLS)?;
    seed(&cells, &mut first, FIRST.child);
    let free = free_cell(&cells, &mut first, FIRST.child)?;
    Some(laps.and(messages(clock, &cells, first, free, FIRST.parent, count)))
}

/// So many messages of each of two hands, which work at once.
pub fn on_two<R: Threads + Sync + AllocGlobal, C: Clock + Sync>(
    rt: &R,
    clock: &C,
    count: u64,
) -> Option<Laps> {
    let (cells, first, second) = open_two(rt.alloc(), CELLS)?;
    let cells = &cells;
    let (mine, theirs) = join(
        rt,
        || -> Option<(Mine, Laps)>
            requires { IsIdle cells.now first × (first.seat.me.0.spent < first.seat.me.0.parts) }
            ensures { IfSome result (λ r. IsIdle cells.entry.now r.0) }
        { begun(clock, cells, first, CELLS / 2) },
        || -> Option<(Mine, Laps)>
            requires { IsIdle cells.now second × (second.seat.me.0.spent < second.seat.me.0.parts) }
            ensures { IfSome result (λ r. IsIdle cells.entry.now r.0) }
        { begun(clock, cells, second, CELLS / 2) },
    );
    let (mut first, laps) = mine?;
    let (mut second, more) = theirs?;
    seed(cells, &mut first, FIRST.child);
    seed(cells, &mut first, SECOND.child);
    let mine = free_cell(cells, &mut first, FIRST.child)?;
    let theirs = free_cell(cells, &mut second, SECOND.child)?;
    let (a, b) = join(
        rt,
        || -> Laps
            requires { HasFree cells.now first mine }
        { messages(clock, cells, first, mine, FIRST.parent, count) },
        || -> Laps
            requires { HasFree cells.now second theirs }
        { messages(clock, cells, second, theirs, SECOND.parent, count) },
    );
    Some(laps.and(more).and(a).and(b))
}

// Draws so many numbers and begins them.
fn begun<C: Clock>(clock: &C, cells: &Table, mut hand: Mine, count: u64) -> Option<(Mine, Laps)>
    requires idle { IsIdle cells.now hand }
    requires may { hand.seat.me.0.spent < hand.seat.me.0.parts }
    ensures { IfSome result (λ r. IsIdle cells.now r.0) }
{
    let mut laps = Laps::default();
    let mut watch = Watch::start(clock);
    for _ in 0..count {
        add(&mut laps.clock, watch.lap());
        start(cells, &mut hand)?;
        add(&mut laps.begin, watch.lap());
        add(&mut laps.begun, 1);
    }
    Some((hand, laps))
}

// The cell of a number on which its own task sent.
fn free_cell(cells: &Table, hand: &mut Mine, number: u64) -> Option<FreeCell>
    requires idle { IsIdle cells.now hand.old }
    requires small { number ≤ 2 ^ 60 }
    ensures { HasSpare cells.now hand.new result }
{
    let Ok(job) = take_one(cells, hand, number) else {
        return None
    };
    if job.number.0 > MOST {
        put_home(cells, hand, job);
        return None;
    }
    let (free, _) = serve(cells, hand, job);
    free
}

fn messages<C: Clock>(
    clock: &C,
    cells: &Table,
    mut hand: Mine,
    free: FreeCell,
    parent: u64,
    count: u64,
) -> Laps
    requires free { HasFree cells.now hand free }
    requires small { parent ≤ 2 ^ 60 }
{
    let mut laps = Laps::default();
    let mut spare = Some(free);
    for _ in 0..count {
        spare = match spare {
            Some(free) => message(clock, cells, &mut hand, free, parent, &mut laps),
            None => None,
        };
    }
    laps
}

fn message<C: Clock>(
    clock: &C,
    cells: &Table,
    hand: &mut Mine,
    free: FreeCell,
    parent: u64,
    laps: &mut Laps,
) -> Option<FreeCell>
    requires free { HasFree cells.now hand.old free }
    requires small { parent ≤ 2 ^ 60 }
    ensures { HasSpare cells.now hand.new result }
{
    let mut watch = Watch::start(clock);
    add(&mut laps.clock, watch.lap());
    let Some(job) = take_parent(cells, hand, parent, &free) else {
        return Some(free)
    };
    add(&mut laps.take, watch.lap());
    if free.next().0 > MOST {
        put_free_home(cells, hand, &free, job);
        return Some(free);
    }
    let child = reopen_next(cells, hand, free, &job);
    add(&mut laps.reopen, watch.lap());
    send_to(cells, hand, child, &job, child.0);
    add(&mut laps.send, watch.lap());
    put_home(cells, hand, job);
    add(&mut laps.home, watch.lap());
    answer(&mut watch, cells, hand, child, laps)
}

// The child takes what was sent.
fn answer<C: Clock>(
    watch: &mut Watch<'_, C>,
    cells: &Table,
    hand: &mut Mine,
    child: Number,
    laps: &mut Laps,
) -> Option<FreeCell>
    requires idle { IsIdle cells.now hand.old }
    requires small { child.0 ≤ 2 ^ 60 }
    ensures { HasSpare cells.now hand.new result }
{
    let Ok(job) = take_one(cells, hand, child.0) else {
        return None
    };
    add(&mut laps.take, watch.lap());
    let number = job.number;
    if job.got.is_some() || number.0 > MOST {
        put_home(cells, hand, job);
        return None;
    }
    match receive_own(cells, hand, job) {
        Got::Parked => None,
        Got::Misused(job, _) => {
            put_home(cells, hand, job);
            None
        }
        Got::Value(job, _) => {
            add(&mut laps.recv, watch.lap());
            finish(watch, cells, hand, number, job, laps)
        }
    }
}

// The child's cell is free.
fn finish<C: Clock>(
    watch: &mut Watch<'_, C>,
    cells: &Table,
    hand: &mut Mine,
    number: Number,
    job: Job,
    laps: &mut Laps,
) -> Option<FreeCell>
    requires right { HoldsRight cells.now hand.old job number.0 }
    requires small { (number.0 ≤ 2 ^ 59) × (job.number.0 ≤ 2 ^ 59) }
    ensures { HasSpare cells.now hand.new result }
{
    match retire_received(cells, hand, number, &job) {
        Retired::First => (),
        Retired::Free(cell) => {
            put_free_home(cells, hand, &cell, job);
            return Some(cell);
        }
    }
    match retire_ended(cells, hand, job) {
        Retired::First => None,
        Retired::Free(cell) => {
            add(&mut laps.retire, watch.lap());
            add(&mut laps.messages, 1);
            Some(cell)
        }
    }
}
